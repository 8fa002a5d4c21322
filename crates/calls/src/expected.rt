// What was expected in a line that is malformed.
ghost use Rattle.std.specs.Prelude.{◌≡◌, Some};
ghost use Rattle.calls.specs.Expected.{expectation};

use std::error::Error;
use std::fmt;

// One case for each thing that can be expected.
#[derive(Clone, Copy, Debug, PartialEq, Eq)]
pub enum Expected {
    Call,
    Kind,
    Writes,
    Places,
    Uid,
    Product,
    Password,
    Frame,
    Count,
    Room,
    End,
}

impl Expected {
    // What was expected, in plain words.
    pub fn text(self) -> &'static str
        ensures value { result.now ≡ expectation self }
    {
        match self {
            Expected::Call => "`box`, `on`, `off`, `frame` or `memory`",
            Expected::Kind => "`picture` or `log`",
            Expected::Writes => "a number of writes up to 4294967295",
            Expected::Places => "a number of places up to 4294967295",
            Expected::Uid => "a UID of 14 hexadecimal digits",
            Expected::Product => "product bytes of 8 hexadecimal digits",
            Expected::Password => "a password of 8 hexadecimal digits",
            Expected::Frame => "a frame in pairs of hexadecimal digits, or `-`",
            Expected::Count => "a bit count from 0 to 255",
            Expected::Room => "a room of up to 4294967295 bytes",
            Expected::End => "the end of the line",
        }
    }
}

impl fmt::Display for Expected {
    ghost output = { λ e. Some (expectation e) };

    fn fmt<W: fmt::Write>(&self, f: &mut fmt::Formatter<W>) -> fmt::Result {
        f.write_str(self.text())
    }
}

impl Error for Expected {}
