//! The laws of answers, each on the contract of a function.
ghost use Rattle.answer.specs.Laws.{ResultsWorked, AnswersFit, AnswersSound, AnswersReadBack, HeaderRepeats, SessionRepeats, FieldsShown, FieldsCounted, RequestsCopyable, TellableFits};

/// The bytes of success, and of the experimental result 5001.
pub fn results_worked()
    ensures { ResultsWorked }
{}

/// An answer fits the buffer.
#[tactic(auto, using(crate::proofs::Readings::answers_fit))]
pub fn answers_fit()
    ensures { AnswersFit }
{}

/// The AVPs of an answer are sound at four levels, if the values shown and the AVP copied are sound at three.
#[tactic(auto, using(crate::proofs::Sounds::answers_sound))]
pub fn answers_sound()
    ensures { AnswersSound }
{}

/// The AVPs of an answer are read back as they were written.
#[tactic(auto, using(crate::proofs::Bodies::answers_read_back))]
pub fn answers_read_back()
    ensures { AnswersReadBack }
{}

/// The header of an answer repeats the request's command, application and identifiers.
#[tactic(auto, using(crate::proofs::Readings::header_repeats))]
pub fn header_repeats()
    ensures { HeaderRepeats }
{}

/// An answer repeats the request's Session-Id.
#[tactic(auto, using(crate::proofs::Readings::session_repeats))]
pub fn session_repeats()
    ensures { SessionRepeats }
{}

/// The fields that an answer shows are those of the set, in ascending order, each with its value.
#[tactic(auto, using(crate::proofs::Readings::fields_shown))]
pub fn fields_shown()
    ensures { FieldsShown }
{}

/// They are as many as the set has members.
#[tactic(auto, using(crate::proofs::Readings::fields_counted))]
pub fn fields_counted()
    ensures { FieldsCounted }
{}

/// The AVPs of a sound request may be copied into an answer, and those directly in one of its groups.
pub fn requests_copyable()
    ensures { RequestsCopyable }
{}

/// What may be told of a request's AVPs has the lengths that a draft asks for.
#[tactic(auto, using(crate::proofs::Copies::tellable_fits))]
pub fn tellable_fits()
    ensures { TellableFits }
{}
