// The commands of the desk, and the words that name them.
ghost use Rattle.std.specs.Prelude.{◌≡◌};
ghost use Rattle.desk_text.specs.Arguments.{command_number};
ghost use Rattle.desk_text.specs.Commands.{word_of, number_of};

use field::same;

#[derive(Clone, Copy, PartialEq, Eq)]
pub enum Command {
    Open,
    Clock,
    Submit,
    Mark,
    Block,
    Final,
    Plain,
    List,
    Message,
    Eic,
    Kw,
    Commission,
    Convert,
    Right,
    Settle,
}

impl Command {
    const ALL: [Command; 15] = [
        Command::Open,
        Command::Clock,
        Command::Submit,
        Command::Mark,
        Command::Block,
        Command::Final,
        Command::Plain,
        Command::List,
        Command::Message,
        Command::Eic,
        Command::Kw,
        Command::Commission,
        Command::Convert,
        Command::Right,
        Command::Settle,
    ];

    #[tactic(auto, unfolding(crate::specs::Commands::word_of, paper::specs::Listing::text))]
    fn word(self) -> &'static [u8]
        ensures { result.now ≡ word_of self }
    {
        match self {
            Command::Open => b"open",
            Command::Clock => b"clock",
            Command::Submit => b"submit",
            Command::Mark => b"mark",
            Command::Block => b"block",
            Command::Final => b"final",
            Command::Plain => b"plain",
            Command::List => b"list",
            Command::Message => b"message",
            Command::Eic => b"eic",
            Command::Kw => b"kw",
            Command::Commission => b"commission",
            Command::Convert => b"convert",
            Command::Right => b"right",
            Command::Settle => b"settle",
        }
    }

    // None where the word names no command.
    pub fn named(word: &[u8]) -> Option<Command>
        ensures { number_of result ≡ command_number word.now }
    {
        Command::ALL.iter().copied().find(|c| same(c.word(), word))
    }
}
