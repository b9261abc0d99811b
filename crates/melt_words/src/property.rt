//! Properties.

ghost use Rattle.std.specs.Prelude.{◌≡◌};
ghost use Rattle.std.specs.Option.{option_map};
ghost use Rattle.mlt_tree.specs.Words.{divided};

/// What stands before the first `=` of a word, and what behind it.
#[tactic(auto, using(std::proofs::lemmas::Str::Pattern::split_once_first))]
pub fn divided(word: &str) -> Option<(&str, &str)>
    ensures { option_map (λ x. (x.0.now, x.1.now)) result ≡ divided word.now }
{
    word.split_once('=')
}
