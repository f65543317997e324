//! How a run ends: its status and its line. It knows no input.

ghost use Rattle.std.specs.Prelude.{◌≡◌};

use amt_values::Bytes;

/// Why a run of `amt` didn't end well.
#[derive(Debug, Drop)]
pub enum Ending {
    /// The words are no command.
    Usage,
    /// The input or the settings can't be read; with the line that tells what is bad in it.
    Fault(Bytes),
    /// A read of the input or of a file failed.
    ReadFault,
    /// A write of the output failed.
    WriteFault,
    /// Devices weren't opened, a receiving from the link or the feed failed, or the start of a worker did.
    LinkFault,
    /// Out of memory, wherever it came.
    Memory,
    /// The input or a file has more octets than are taken.
    TooLong,
    /// The input was read and isn't as it should be; with the line that tells the difference.
    Difference(Bytes),
    /// A random word couldn't be drawn.
    RandomFault,
}

impl Ending {
    ghost use Rattle.amt_command.specs.Ending.{status_of_ending, line_of_ending};

    /// The exit status, from 2 to 10. A run that ended well has no `Ending`, and exits with 0.
    pub fn status(&self) -> u8
        ensures { result ≡ status_of_ending self.now }
    {
        match self {
            Ending::Usage => 2,
            Ending::Fault(_) => 3,
            Ending::ReadFault => 4,
            Ending::WriteFault => 5,
            Ending::LinkFault => 6,
            Ending::Memory => 7,
            Ending::TooLong => 8,
            Ending::Difference(_) => 9,
            Ending::RandomFault => 10,
        }
    }

    /// The line on standard error, with its line feed.
    pub fn line(&self) -> &[u8]
        ensures { result.now ≡ line_of_ending self.now }
    {
        match self {
            Ending::Usage =>
                b"amt: usage: replay relay|gateway|pair, dump, vectors, load SEED N, relay FILE, gateway FILE\n",
            Ending::Fault(line) => line.as_slice(),
            Ending::ReadFault => b"amt: read fault\n",
            Ending::WriteFault => b"amt: write fault\n",
            Ending::LinkFault => b"amt: link fault\n",
            Ending::Memory => b"amt: out of memory\n",
            Ending::TooLong => b"amt: input too long\n",
            Ending::Difference(line) => line.as_slice(),
            Ending::RandomFault => b"amt: random source fault\n",
        }
    }
}
