//! The laws of sequences, each on the contract of a function.
ghost use Rattle.diameter.specs.Laws.{SoundnessDecided, SoundIsWhole, LengthsJudged};

/// Soundness as the rule words it is what `is_sound` computes, both ways.
#[tactic(auto, using(crate::proofs::Decided::decided))]
pub fn soundness_decided()
    ensures { SoundnessDecided }
{}

/// A sound sequence is its AVPs put end to end.
#[tactic(auto, using(crate::proofs::Decided::sound_whole))]
pub fn sound_is_whole()
    ensures { SoundIsWhole }
{}

/// In twelve bytes an AVP without vendor is sound with length 9, and unsound with 13 and with 7.
pub fn lengths_judged()
    ensures { LengthsJudged }
{}
