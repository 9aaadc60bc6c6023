// The answer of the reader, as it is told.
ghost use Rattle.std.specs.Prelude.{◌≡◌};
ghost use Rattle.boxcode.specs.Reader.{no_report};
ghost use Rattle.mend.specs.Report.{report_as};
ghost use Rattle.reader.specs.Read.{told_read};

use mend::report::Report;
use plan::verdict::{Refusal, Verdict};

// The number of document 01's table with its places, and the report: six zeros where the number is not 0.
#[derive(Clone, Copy)]
pub struct Answer {
    pub verdict: Verdict,
    pub report: Report,
}

// A refusal.
pub fn refused_as(verdict: Verdict) -> Answer
    ensures { result ≡ record { verdict = verdict; report = report_as no_report } }
{
    Answer {
        verdict,
        report: Report {
            cells: 0,
            top: 0,
            left: 0,
            height: 0,
            width: 0,
            pattern: 0,
        },
    }
}

// What is told of a read: its report, or why there is none.
pub fn tell(read: Result<Report, Refusal>) -> Answer
    ensures { result ≡ told_read read }
{
    match read {
        Ok(report) => Answer {
            verdict: Verdict {
                number: 0,
                p: 0,
                q: 0,
            },
            report,
        },
        Err(refusal) => refused_as(refusal.told()),
    }
}
