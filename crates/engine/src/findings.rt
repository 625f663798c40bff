// What was found about the inputs of a known transaction (document 02, 2), as eight words: for each finding its number and
// that of the pledging transaction.
// Stays: a number for an answer, and zeros where there is no finding. include/plankeeper.h tells both, and the definition `findings_words`.
ghost use Rattle.std.specs.Prelude.{◌≡◌, cond, ◌&&◌, ltb, [], ◌∷◌, slice_index_or, take};
ghost use Rattle.model.specs.Answers.{finding_number, pledging_number};
ghost use Rattle.model.specs.declared.Finding.TheVariants.{Available};
ghost use Rattle.engine.specs.Queries.{findings_words, TellsFindings};

use crate::codes::refusal_number;
use layout::findings::{finding_number, pledging_number};
use model::{Finding, Report};

// The two words of a place, 0 where there is no finding.
fn pair_at(count: u8, found: &[Finding; 4], k: usize) -> [u32; 2]
    ensures { result ≡ cond (ltb k 4 && ltb k count)
        (finding_number (slice_index_or found.now k Available) ∷ pledging_number (slice_index_or found.now k Available) ∷ [])
        (0 ∷ 0 ∷ []) }
{
    match found.get(k) {
        Some(&x) if k < usize::from(count) => [finding_number(x), pledging_number(x)],
        _ => [0, 0],
    }
}

// Stays: four places, and how many are used. So the report has them (`Findings`, in the model), and nothing is allocated.
fn findings_words(count: u8, found: [Finding; 4]) -> [u32; 8]
    ensures { result ≡ findings_words 4 (take count found) }
{
    // Stays: the four are written out, since the proof did not close for `array::from_fn`: of a closure that hands back an array nothing is known.
    let pairs = [
        pair_at(count, &found, 0),
        pair_at(count, &found, 1),
        pair_at(count, &found, 2),
        pair_at(count, &found, 3),
    ];
    let mut words = [0; 8];
    words.copy_from_slice(pairs.as_flattened());
    words
}

// Into the lent words, which a refusal leaves as they were.
pub(crate) fn tell(report: Report, words: &mut [u32; 8]) -> u32
    ensures { TellsFindings report words.old result words.new }
{
    match report {
        Err(refusal) => refusal_number(refusal),
        Ok(found) => {
            *words = findings_words(found.count, found.list);
            700 + u32::from(found.count)
        }
    }
}
