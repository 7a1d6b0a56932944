// The tag of a record: which call it is, or what it does with the buffer.
ghost use Rattle.std.specs.Prelude.{◌≡◌};
ghost use Rattle.stream.specs.Tags.{number_of, Decodes};
ghost use Rattle.stream.specs.Line.{word_of};
ghost use Rattle.stream.specs.Records.{Spans, sizes_of, lawful};

use std::ops::RangeInclusive;

#[derive(Clone, Copy, PartialEq, Eq)]
pub enum Tag {
    Length = 1,
    Bytes,
    Book,
    Sum,
    Open,
    Clock,
    Submit,
    Mark,
    Block,
    Final,
    Plain,
    Reader,
    Walk,
    Listing,
    Sound,
    Eic,
    Id,
    Read,
    Print,
    Check,
    Seal,
    Code,
    Judge,
    OpenBy,
    Convert,
    Right,
    Settled,
}

// A record that is none, or one that its stream ends in: nothing behind it is answered.
#[derive(Clone, Copy, PartialEq, Eq)]
pub struct Malformed;

impl TryFrom<u8> for Tag {
    type Error = Malformed;

    ghost try_from_gives = { Decodes };

    fn try_from(number: u8) -> Result<Tag, Malformed> {
        match number {
            1 => Ok(Tag::Length),
            2 => Ok(Tag::Bytes),
            3 => Ok(Tag::Book),
            4 => Ok(Tag::Sum),
            5 => Ok(Tag::Open),
            6 => Ok(Tag::Clock),
            7 => Ok(Tag::Submit),
            8 => Ok(Tag::Mark),
            9 => Ok(Tag::Block),
            10 => Ok(Tag::Final),
            11 => Ok(Tag::Plain),
            12 => Ok(Tag::Reader),
            13 => Ok(Tag::Walk),
            14 => Ok(Tag::Listing),
            15 => Ok(Tag::Sound),
            16 => Ok(Tag::Eic),
            17 => Ok(Tag::Id),
            18 => Ok(Tag::Read),
            19 => Ok(Tag::Print),
            20 => Ok(Tag::Check),
            21 => Ok(Tag::Seal),
            22 => Ok(Tag::Code),
            23 => Ok(Tag::Judge),
            24 => Ok(Tag::OpenBy),
            25 => Ok(Tag::Convert),
            26 => Ok(Tag::Right),
            27 => Ok(Tag::Settled),
            _ => Err(Malformed),
        }
    }
}

impl Tag {
    // The fewest and the most bytes of a body: the table's columns "shortest" and "longest body".
    #[tactic(auto, unfolding(crate::specs::Records::sizes_of, crate::specs::Records::rows))]
    fn sizes(self) -> RangeInclusive<usize>
        ensures { Spans result (sizes_of (number_of self)) }
    {
        match self {
            Tag::Length => 4..=4,
            Tag::Bytes => 4..=512516,
            Tag::Book => 0..=0,
            Tag::Sum => 0..=0,
            Tag::Open => 6..=198,
            Tag::Clock => 2..=2,
            Tag::Submit => 0..=131072,
            Tag::Mark => 2..=130,
            Tag::Block => 2..=130,
            Tag::Final => 4..=132,
            Tag::Plain => 0..=0,
            Tag::Reader => 2..=131074,
            Tag::Walk => 0..=131072,
            Tag::Listing => 0..=0,
            Tag::Sound => 0..=0,
            Tag::Eic => 0..=64,
            Tag::Id => 0..=64,
            Tag::Read => 0..=64,
            Tag::Print => 4..=68,
            Tag::Check => 512..=512,
            Tag::Seal => 512..=512,
            Tag::Code => 1..=1,
            Tag::Judge => 0..=131072,
            Tag::OpenBy => 7..=199,
            Tag::Convert => 0..=0,
            Tag::Right => 0..=1024,
            Tag::Settled => 3..=67,
        }
    }

    // Whether a body of n bytes may stand behind this tag.
    pub fn lawful(self, n: usize) -> bool
        ensures { result ≡ lawful (number_of self) n }
    {
        self.sizes().contains(&n)
    }

    // The word that its line begins with.
    #[tactic(auto, unfolding(crate::specs::Line::word_of, crate::specs::Line::words, desk_text::specs::Words::line_numbered, desk_text::specs::Words::piece_numbered, desk_text::specs::Words::past_pieces, desk_text::specs::Words::past_piece, desk_text::specs::Words::first_piece, desk_text::specs::Words::lines, laws::specs::Lists::until, laws::specs::Tests::is, paper::specs::Listing::text))]
    pub fn word(self) -> &'static [u8]
        ensures { result.now ≡ word_of (number_of self) }
    {
        match self {
            Tag::Length => b"length",
            Tag::Bytes => b"bytes",
            Tag::Book => b"book",
            Tag::Sum => b"sum",
            Tag::Open => b"open",
            Tag::Clock => b"clock",
            Tag::Submit => b"submit",
            Tag::Mark => b"mark",
            Tag::Block => b"block",
            Tag::Final => b"final",
            Tag::Plain => b"plain",
            Tag::Reader => b"reader",
            Tag::Walk => b"walk",
            Tag::Listing => b"listing",
            Tag::Sound => b"sound",
            Tag::Eic => b"eic",
            Tag::Id => b"id",
            Tag::Read => b"read",
            Tag::Print => b"print",
            Tag::Check => b"check",
            Tag::Seal => b"seal",
            Tag::Code => b"code",
            Tag::Judge => b"judge",
            Tag::OpenBy => b"open_by",
            Tag::Convert => b"convert",
            Tag::Right => b"right",
            Tag::Settled => b"settled",
        }
    }
}
