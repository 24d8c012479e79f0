ghost use Rattle.std.specs.Prelude.{◌≡◌, IfOk, count_by};
ghost use Rattle.std.specs.List.Sorted.{IsPermutation};
ghost use Rattle.renewals.specs.Report.{verdict_of, judged, counts_of, ShowsDays, standing_at, entry_of, entries_of, AllShowDays, InOrder};

use crate::report::{Counts, Remaining, Verdict};
use sources::certificates::Certificates;
use sources::rows::Expiry;
use sources::source::Source;
use std::alloc::{AllocError, Global};
use values::value::Value;

// The entry of a row, at whose node the source shows a number of days.
fn entry_of(certificates: &Certificates, row: &Expiry) -> Remaining
    requires { ShowsDays (standing_at certificates.now row.now.node) }
    ensures { result ≡ entry_of (standing_at certificates.now) row.now }
{
    match certificates
        .query(row.node)
        .map(|standing| standing.sample.value)
    {
        Some(Value::Int32(days_left)) => Remaining {
            days_left,
            node: row.node,
        },
        _ => unreachable(),
    }
}

// An entry for each row, in the order of the rows.
fn listed(heap: Global, certificates: &Certificates) -> Result<Vec<Remaining>, AllocError>
    ensures { IfOk result (λ v. v.items ≡ entries_of certificates.now) }
{
    certificates
        .rows()
        .iter()
        .map(|row| entry_of(certificates, row))
        .collect(heap)
}

#[tactic(auto, using(crate::proofs::Order::in_order))]
fn sorted(mut entries: Vec<Remaining>) -> Vec<Remaining>
    ensures shuffled { IsPermutation entries.items result.items }
    ensures ordered { InOrder result.items }
{
    entries.sort_unstable();
    entries
}

// The days left of each node, by rising days left, then by node.
#[tactic(auto, using(crate::proofs::Shown::all_shown))]
pub fn remaining(heap: Global, certificates: &Certificates) -> Result<Vec<Remaining>, AllocError>
    ensures known { AllShowDays certificates.now }
    ensures entries { IfOk result (λ v. IsPermutation (entries_of certificates.now) v.items) }
    ensures ordered { IfOk result (λ v. InOrder v.items) }
{
    Ok(sorted(listed(heap, certificates)?))
}

// Expired below 0 days, to be renewed up to the limit.
pub fn verdict(days_left: i32, limit: u32) -> Verdict
    ensures { result ≡ verdict_of days_left limit }
{
    match u32::try_from(days_left) {
        Err(_) => Verdict::Expired,
        Ok(days) if days <= limit => Verdict::Renew,
        Ok(_) => Verdict::Valid,
    }
}

// How many entries the verdict is given on.
fn count_of(entries: &[Remaining], limit: u32, wanted: Verdict) -> usize
    ensures { result ≡ count_by (judged limit wanted) entries.now }
{
    entries
        .iter()
        .filter(|entry| verdict(entry.days_left, limit) == wanted)
        .count()
}

pub fn counts(entries: &[Remaining], limit: u32) -> Counts
    ensures { result ≡ counts_of entries.now limit }
{
    Counts {
        nodes: entries.len(),
        expired: count_of(entries, limit, Verdict::Expired),
        renew: count_of(entries, limit, Verdict::Renew),
    }
}
