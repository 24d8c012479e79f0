ghost use Rattle.std.specs.Prelude.{◌≡◌, fold, Ok};
ghost use Rattle.renewals.specs.declared.line.Reading.TheVariants.{Start};
ghost use Rattle.renewals.specs.Form.{Says, ReadsBack};
ghost use Rattle.renewals.specs.Line.{with_digit, on_digit, on_blank, on_return, said, step, next, reading};

use sources::rows::Expiry;

// The line is neither blank nor an entry.
#[derive(Clone, Copy)]
pub struct Unreadable;

// How far a line has been read, with the numbers read so far.
#[derive(Clone, Copy)]
enum Reading {
    Start,
    Node(u32),
    Gap(u32),
    EndDay(Expiry),
    After(Expiry),
    Ended(Option<Expiry>),
}

// The number with one more digit, where it stays within u32. As in `script_numbers` at 64 bits, on which this crate does not
// stand: two checked steps.
fn with_digit(number: u32, digit: u8) -> Result<u32, Unreadable>
    ensures { result ≡ with_digit number digit }
{
    number
        .checked_mul(10)
        .and_then(|number| number.checked_add(u32::from(digit)))
        .ok_or(Unreadable)
}

impl Reading {
    fn digit(self, digit: u8) -> Result<Reading, Unreadable>
        ensures { result ≡ on_digit self digit }
    {
        match self {
            Reading::Start => Ok(Reading::Node(u32::from(digit))),
            Reading::Node(node) => Ok(Reading::Node(with_digit(node, digit)?)),
            Reading::Gap(node) => Ok(Reading::EndDay(Expiry {
                node,
                end_day: u32::from(digit),
            })),
            Reading::EndDay(Expiry { node, end_day }) => Ok(Reading::EndDay(Expiry {
                node,
                end_day: with_digit(end_day, digit)?,
            })),
            Reading::After(_) | Reading::Ended(_) => Err(Unreadable),
        }
    }

    fn blank(self) -> Result<Reading, Unreadable>
        ensures { result ≡ on_blank self }
    {
        match self {
            Reading::Start => Ok(Reading::Start),
            Reading::Node(node) | Reading::Gap(node) => Ok(Reading::Gap(node)),
            Reading::EndDay(expiry) | Reading::After(expiry) => Ok(Reading::After(expiry)),
            Reading::Ended(_) => Err(Unreadable),
        }
    }

    // A carriage return ends the line: nothing may come behind it.
    fn carriage_return(self) -> Result<Reading, Unreadable>
        ensures { result ≡ on_return self }
    {
        match self {
            Reading::Ended(_) => Err(Unreadable),
            _ => Ok(Reading::Ended(self.said()?)),
        }
    }

    fn next(self, byte: u8) -> Result<Reading, Unreadable>
        ensures { result ≡ step self byte }
    {
        match byte {
            // The pattern shows a digit, and the difference is its value: `to_digit` would have a case that never comes.
            b'0'..=b'9' => self.digit(byte - b'0'),
            b' ' | b'\t' => self.blank(),
            b'\r' => self.carriage_return(),
            _ => Err(Unreadable),
        }
    }

    // What the line says if it ends here.
    fn said(self) -> Result<Option<Expiry>, Unreadable>
        ensures { result ≡ said self }
    {
        match self {
            Reading::Start => Ok(None),
            Reading::EndDay(expiry) | Reading::After(expiry) => Ok(Some(expiry)),
            Reading::Ended(expiry) => Ok(expiry),
            Reading::Node(_) | Reading::Gap(_) => Err(Unreadable),
        }
    }
}

// The reading behind the line's last byte. What every line says, by its form, is proved here.
#[tactic(auto, using(crate::proofs::Steps::stops, crate::proofs::Says::says, crate::proofs::Says::back))]
fn scanned(line: &[u8]) -> Result<Reading, Unreadable>
    ensures value { result ≡ fold next (Ok Start) line.now }
    ensures says { Says line.now (reading line.now) }
    ensures back { ReadsBack line.now (reading line.now) }
{
    let mut reading = Reading::Start;
    for byte in line {
        reading = reading.next(*byte)?;
    }
    Ok(reading)
}

// Reads a node and its end day in decimal, with blanks before, between and behind them, and at most one carriage
// return at the end; a blank line says nothing. A number above u32::MAX makes the line unreadable.
pub fn read_line(line: &[u8]) -> Result<Option<Expiry>, Unreadable>
    ensures value { result ≡ reading line.now }
    ensures says { Says line.now result }
    ensures back { ReadsBack line.now result }
{
    scanned(line)?.said()
}
