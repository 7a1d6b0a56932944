// The numbers that an answer tells.
ghost use Rattle.std.specs.Prelude.{◌≤◌, ◌<◌};

// In the order of their line, and how many they are: one at least, and no answer tells more than six.
#[derive(Clone, Copy)]
pub struct Told {
    count: usize,
    numbers: [usize; 6],
    ghost some: { 0 < count },
    ghost fits: { count ≤ 6 },
}

impl Told {
    ghost use Rattle.std.specs.Prelude.{◌≡◌, length};
    ghost use Rattle.stream.specs.Told.{numbers_of};

    pub fn of<const N: usize>(numbers: [usize; N]) -> Told
        requires { (0 < N) × (N ≤ 6) }
        ensures { numbers_of result ≡ numbers.entry }
    {
        let mut room = [0; 6];
        room[..N].copy_from_slice(&numbers);
        Told {
            count: N,
            numbers: room,
        }
    }

    pub fn numbers(&self) -> &[usize]
        ensures { (result.now ≡ numbers_of self.now) × (0 < length result.now) }
    {
        &self.numbers[..self.count]
    }
}
