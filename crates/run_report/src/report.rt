// The report of a run, as text and as a status.
ghost use Rattle.std.specs.Prelude.{◌≡◌, ◌++◌, IfOk, OnOk, Some, string_bytes};
ghost use Rattle.std.specs.List.Sorted.{IsNonDecreasingBy, IsPermutation};
ghost use Rattle.run_report.specs.Report.{has_put, has_refusal, has_unsaved, has_unwritten, replies_text, report_text, status_of_report, unsaved_lines, unwritten_lines, unwritten_text};

use crate::counts::{Counts, Lost, put_name};
use crate::reply::Reply;
use crate::shot::Shot;
use arr_history::{Tally, Unsaved};
use arrayvec::ArrayString;
use plain_data::Items;
use std::alloc::{AllocError, Global};
use std::fmt::{self, Write};

/// What a run answered and the pictures that it painted, both in order of phase, actor and call, what it counted, and the cells
/// that it could not save.
#[derive(Drop)]
pub struct Report {
    pub replies: Items<Reply>,
    pub shots: Items<Shot>,
    pub tally: Tally,
    pub unsaved: Items<Unsaved>,
}

/// A picture whose put was not done.
#[derive(Clone, Copy)]
pub struct Unwritten {
    pub name: ArrayString<32>,
    /// Whether memory was wanting; else the store failed.
    pub memory: bool,
}

impl fmt::Display for Unwritten {
    ghost output = { λ unwritten. Some (unwritten_text unwritten) };

    fn fmt<W: fmt::Write>(&self, f: &mut fmt::Formatter<W>) -> fmt::Result {
        let name = self.name.as_str();
        let cause = put_name(self.memory);
        write!(f, "unwritten {name} {cause}")
    }
}

impl Report {
    /// A report, whose unsaved cells ascend. It takes no memory.
    pub fn new(
        replies: Items<Reply>,
        shots: Items<Shot>,
        tally: Tally,
        mut unsaved: Vec<Unsaved>,
    ) -> Report
        ensures replies { result.replies ≡ replies }
        ensures shots { result.shots ≡ shots }
        ensures tally { result.tally ≡ tally }
        ensures unsaved { IsPermutation unsaved.items result.unsaved }
        ensures ascending { IsNonDecreasingBy (λ u. u.cell) result.unsaved }
    {
        unsaved.sort_unstable_by_key(|cell| cell.cell);
        Report {
            replies,
            shots,
            tally,
            unsaved: Items::from_vec(unsaved),
        }
    }

    /// The text of a report: a line for each reply, one for the tally, then one for each unsaved cell and one for each
    /// unwritten picture.
    pub fn text(&self, alloc: Global, unwritten: &[Unwritten]) -> Result<String, AllocError>
        ensures { IfOk result (λ text. string_bytes text ≡ report_text self.now unwritten.now) }
    {
        let mut text = String::new(alloc);
        write_replies(&mut text, self.replies.as_slice())?;
        let counts = Counts(self.tally);
        writeln!(text, "{counts}")?;
        write_unsaved(&mut text, self.unsaved.as_slice())?;
        write_unwritten(&mut text, unwritten)?;
        Ok(text)
    }

    /// The status of a run whose text was printed whole: 7 where memory was wanting for a put, else 5 where a store
    /// failed in one, else 1 where a reply is a refusal, else 0.
    pub fn status(&self, unwritten: &[Unwritten]) -> u8
        ensures { result ≡ status_of_report self.now unwritten.now }
    {
        if self.has_put(unwritten, true) {
            7
        } else if self.has_put(unwritten, false) {
            5
        } else if self.has_refusal() {
            1
        } else {
            0
        }
    }

    /// Whether a put was not done for want of memory, or for a fault of the store.
    fn has_put(&self, unwritten: &[Unwritten], memory: bool) -> bool
        ensures { result ≡ has_put memory self.now unwritten.now }
    {
        has_unsaved(self.unsaved.as_slice(), memory) || has_unwritten(unwritten, memory)
    }

    fn has_refusal(&self) -> bool
        ensures { result ≡ has_refusal self.now }
    {
        let replies = self.replies.as_slice();
        replies.iter().any(|reply| reply.answer.is_refusal())
    }
}

fn has_unsaved(unsaved: &[Unsaved], memory: bool) -> bool
    ensures { result ≡ has_unsaved memory unsaved.now }
{
    unsaved.iter().any(|cell| cell.memory == memory)
}

fn has_unwritten(unwritten: &[Unwritten], memory: bool) -> bool
    ensures { result ≡ has_unwritten memory unwritten.now }
{
    unwritten.iter().any(|picture| picture.memory == memory)
}

fn write_replies(text: &mut String, replies: &[Reply]) -> Result<(), AllocError>
    ensures { OnOk result (string_bytes text.new ≡ string_bytes text.old ++ replies_text replies.now) }
{
    for reply in replies {
        writeln!(text, "{reply}")?;
    }
    Ok(())
}

fn write_unsaved(text: &mut String, unsaved: &[Unsaved]) -> Result<(), AllocError>
    ensures { OnOk result (string_bytes text.new ≡ string_bytes text.old ++ unsaved_lines unsaved.now) }
{
    for cell in unsaved {
        let lost = Lost(*cell);
        writeln!(text, "{lost}")?;
    }
    Ok(())
}

fn write_unwritten(text: &mut String, unwritten: &[Unwritten]) -> Result<(), AllocError>
    ensures { OnOk result (string_bytes text.new ≡ string_bytes text.old ++ unwritten_lines unwritten.now) }
{
    for picture in unwritten {
        writeln!(text, "{picture}")?;
    }
    Ok(())
}
