ghost use Rattle.std.specs.Prelude.{◌≡◌, Some};
ghost use Rattle.answers.specs.Acknowledgements.{acknowledgement_status, acknowledgement_name};

use std::fmt;

// A message that a client has received: its subscription and its sequence number.
#[derive(Clone, Copy)]
pub struct Acknowledgement {
    pub subscription: u32,
    pub number: u32,
}

// What an acknowledgement comes to. An enum and no Result: a list of these holds status codes, and Good is one of them, with
// a code and a name of its own.
#[derive(Clone, Copy)]
pub enum AcknowledgementResult {
    Good,
    SubscriptionIdInvalid,
    SequenceNumberUnknown,
}

impl AcknowledgementResult {
    // The OPC UA status code.
    pub fn status(self) -> u32
        ensures { result ≡ acknowledgement_status self }
    {
        match self {
            AcknowledgementResult::Good => 0,
            AcknowledgementResult::SubscriptionIdInvalid => 0x8028_0000,
            AcknowledgementResult::SequenceNumberUnknown => 0x807A_0000,
        }
    }

    // The status name of OPC UA Part 4.
    pub fn name(self) -> &'static str
        ensures { result.now ≡ acknowledgement_name self }
    {
        match self {
            AcknowledgementResult::Good => "Good",
            AcknowledgementResult::SubscriptionIdInvalid => "Bad_SubscriptionIdInvalid",
            AcknowledgementResult::SequenceNumberUnknown => "Bad_SequenceNumberUnknown",
        }
    }
}

impl fmt::Display for AcknowledgementResult {
    ghost output = { λ r. Some (acknowledgement_name r) };

    fn fmt<W: fmt::Write>(&self, f: &mut fmt::Formatter<W>) -> fmt::Result {
        f.write_str(self.name())
    }
}
