// The analyses of a plan over lent bytes: specs/Analysis.antt, specs/Counts.antt.
#![tactic(auto)]

ghost use Rattle.packing.specs.Answer.{length_answer};
ghost use Rattle.analysis_interface.specs.Analysis.{blocking_answer, FoundBytes};
ghost use Rattle.analysis_interface.specs.Counts.{CountedBytes};
ghost use Rattle.std.specs.Prelude.{◌≡◌};

use refusal::Refusal;

// An answer as one number.
fn found(a: Result<Option<usize>, Refusal>) -> u64
    ensures { result ≡ blocking_answer a }
{
    match a {
        Ok(None) => packing::pack(0, 7, 0, 0),
        Ok(Some(n)) => packing::pack(0, 8, 0, n),
        Err(e) => packing::pack(e.number, 0, 0, e.offset),
    }
}

// Whether a plan ever gets stuck, and how.
pub fn find_stuck(image: &[u8], buffer: &mut [u8]) -> u64
    ensures { FoundBytes image.now buffer.old result buffer.new }
{
    found(blocking::find_stuck(image, buffer))
}

// How many words of a length lead to each joint state of a plan.
pub fn count_words(image: &[u8], length: u64, buffer: &mut [u8]) -> u64
    ensures { CountedBytes image.now length buffer.old result buffer.new }
{
    packing::written(counting::count_words(image, length, buffer))
}
