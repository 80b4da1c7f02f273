//! Laws of what an audit answers.

ghost use Rattle.std.specs.Prelude.{◌≡◌, ℕ, List, None};
ghost use Rattle.mip_audit.specs.Differences.{difference};
ghost use Rattle.mip_audit.specs.DifferencesLaws.{IsJudgedSo};

/// Where no line is answered the two texts are the same. Where one is, the lines before it are the same in both, and with it they
/// are not. A text does not differ from itself.
pub fn first_differences_are_found()
    ensures judged { (given permitted : List ℕ) → IsJudgedSo (difference given permitted) given permitted }
    ensures itself { (text : List ℕ) → difference text text ≡ None }
{}
