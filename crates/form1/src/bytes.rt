// Numbers at places of a file, the least significant byte first.
ghost use Rattle.std.specs.Prelude.{◌≡◌, ◌+◌, ◌%◌, ◌≤◌, length};
ghost use Rattle.form1.specs.Form1.{number_at, signed_at};

#[tactic(auto, using(crate::proofs::NumberAt::numbers))]
pub(crate) fn pair_at(file: &[u8], place: usize) -> u16
    requires { place + 2 ≤ length file.now }
    ensures { result ≡ number_at 2 place file.now }
{
    u16::from_le_bytes([file[place], file[place + 1]])
}

pub(crate) fn signed_at(file: &[u8], place: usize) -> i32
    requires { place + 4 ≤ length file.now }
    ensures { result ≡ signed_at place file.now }
{
    i32::from_le_bytes([
        file[place],
        file[place + 1],
        file[place + 2],
        file[place + 3],
    ])
}

// The lowest byte of a number.
pub(crate) fn low(n: u16) -> u8
    ensures { result ≡ n % 256 }
{
    (n % 256) as u8
}
