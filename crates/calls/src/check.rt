//! `codenav check-lsif` and `codenav check-tags`: read a dump or a tags file and write its report.
//! The text of reports is in `report.rt`.
ghost use Rattle.std.specs.Prelude.{◌≡◌, IfOk};
ghost use Rattle.streams.specs.Streams.{CanCount, IsCountable};
ghost use Rattle.calls.specs.Report.{Checks, CountsCheck, ReportsDump, ReportsTags};
ghost use Rattle.calls.specs.Steps.Judging.{CountsRead};

use crate::report::{CheckFault, FaultyLine, Report, Status, send};
use dump::{DumpFault, read_dump};
use lsif::Profile;
use std::alloc::Global;
use streams::{Sink, Source};
use tags::{CountFault, count_tags};

/// The report of a reader's bytes, which are a dump.
fn judge_dump<R: Source>(alloc: Global, profile: Profile, r: &mut R) -> Result<Report, CheckFault>
    requires { IsCountable (R.failed r.old) }
    ensures report { IfOk result (λ report. ReportsDump profile (R.left r.old) report) }
    ensures counted { CountsRead (R.failed r.old) (R.failed r.new) result }
{
    match read_dump(alloc, profile, r) {
        Ok(dump) => Ok(Report::Elements(dump.elements().len() as u32)),
        Err(DumpFault::Line(fault)) => Ok(Report::Faulty(FaultyLine {
            line: fault.line,
            name: fault.code.name(),
            text: fault.code.text(),
        })),
        Err(DumpFault::Memory) => Err(CheckFault::Memory),
        Err(DumpFault::Read) => Err(CheckFault::Read),
    }
}

/// The report of a reader's bytes, which are a tags file.
fn judge_tags<R: Source>(alloc: Global, r: &mut R) -> Result<Report, CheckFault>
    requires { IsCountable (R.failed r.old) }
    ensures report { IfOk result (λ report. ReportsTags (R.left r.old) report) }
    ensures counted { CountsRead (R.failed r.old) (R.failed r.new) result }
{
    match count_tags(alloc, r) {
        Ok(tags) => Ok(Report::Tags(tags)),
        Err(CountFault::Line(fault)) => Ok(Report::Faulty(FaultyLine {
            line: fault.line,
            name: fault.code.name(),
            text: fault.code.text(),
        })),
        Err(CountFault::Memory) => Err(CheckFault::Memory),
        Err(CountFault::Read) => Err(CheckFault::Read),
    }
}

/// Reads a dump by a profile from a reader to its end, or up to its first faulty line, and writes
/// the line of its report: `ok N elements`, or `line N: CODE text`. Keeps the dump's elements, and
/// of its bytes one line. Refuses where memory was refused, the reader failed, or the writer failed
/// or took no byte.
pub fn check_lsif<R: Source, W: Sink>(
    alloc: Global,
    profile: Profile,
    r: &mut R,
    w: &mut W,
) -> Result<Status, CheckFault>
    requires reads { IsCountable (R.failed r.old) }
    requires writes { CanCount (W.output w.old) }
    ensures checks { Checks (ReportsDump profile (R.left r.old)) (W.output w.old) result (W.output w.new) }
    ensures counted { CountsCheck (R.failed r.old) result (R.failed r.new) }
{
    let report = judge_dump(alloc, profile, r)?;
    send(alloc, report, w)
}

/// Reads a tags file from a reader to its end, or up to its first faulty line, and writes the line
/// of its report: `ok N tags`, the ordinary ones, or `line N: CODE text`. Keeps of its bytes one
/// line, and the last tag's name. Refuses where memory was refused, the reader failed, or the
/// writer failed or took no byte.
pub fn check_tags<R: Source, W: Sink>(
    alloc: Global,
    r: &mut R,
    w: &mut W,
) -> Result<Status, CheckFault>
    requires reads { IsCountable (R.failed r.old) }
    requires writes { CanCount (W.output w.old) }
    ensures checks { Checks (ReportsTags (R.left r.old)) (W.output w.old) result (W.output w.new) }
    ensures counted { CountsCheck (R.failed r.old) result (R.failed r.new) }
{
    let report = judge_tags(alloc, r)?;
    send(alloc, report, w)
}
