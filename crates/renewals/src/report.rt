ghost use Rattle.std.specs.Prelude.{◌≡◌, Some};
ghost use Rattle.renewals.specs.Texts.{mark_of, counts_text};

use std::fmt;

// The days left until a node's certificate ends. The order is by days left, then by node.
#[derive(Clone, Copy, PartialEq, Eq, PartialOrd, Ord)]
pub struct Remaining {
    pub days_left: i32,
    pub node: u32,
}

// What the days left mean for a certificate.
#[derive(Clone, Copy, PartialEq, Eq)]
pub enum Verdict {
    Expired,
    Renew,
    Valid,
}

impl Verdict {
    // What is printed behind the days left, with the blank before it.
    pub fn mark(&self) -> &'static str
        ensures { result.now ≡ mark_of self.now }
    {
        match self {
            Verdict::Expired => " EXPIRED",
            Verdict::Renew => " RENEW",
            Verdict::Valid => "",
        }
    }
}

impl fmt::Display for Verdict {
    ghost output = { λ v. Some (mark_of v) };

    fn fmt<W: fmt::Write>(&self, f: &mut fmt::Formatter<W>) -> fmt::Result {
        f.write_str(self.mark())
    }
}

// How many nodes there are, and how many of them are expired or to be renewed.
#[derive(Clone, Copy)]
pub struct Counts {
    pub nodes: usize,
    pub expired: usize,
    pub renew: usize,
}

impl fmt::Display for Counts {
    ghost output = { λ c. Some (counts_text c) };

    fn fmt<W: fmt::Write>(&self, f: &mut fmt::Formatter<W>) -> fmt::Result {
        write!(
            f,
            "nodes {} expired {} renew {}",
            self.nodes, self.expired, self.renew
        )
    }
}
