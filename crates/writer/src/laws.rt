//! The laws of what is written, each on the contract of a function.
ghost use Rattle.writer.specs.Laws.{StoresOnlyAppend, StoresCompose, ReadBack, PartsReadBack, HeaderReadBack, PlainKeepsSound, GroupKeepsSound, PartsSound};

/// A store changes no byte before the end reached, and none past its own.
#[tactic(auto, using(crate::proofs::Stores::stores_only_append))]
pub fn stores_only_append()
    ensures { StoresOnlyAppend }
{}

/// Two stores in a row are one store of both.
pub fn stores_compose()
    ensures { StoresCompose }
{}

/// An AVP that was written is read back as it was written, whatever follows it.
pub fn read_back()
    ensures { ReadBack }
{}

/// AVPs written one after the other are read back one by one.
#[tactic(auto, using(crate::proofs::Written::parts_read_back))]
pub fn parts_read_back()
    ensures { PartsReadBack }
{}

/// The header of a message is read back as it was written.
#[tactic(auto, using(crate::proofs::Written::header_read_back))]
pub fn header_read_back()
    ensures { HeaderReadBack }
{}

/// An AVP that is no group leaves soundness to what follows it.
#[tactic(auto, using(crate::proofs::Written::plain_keeps_sound))]
pub fn plain_keeps_sound()
    ensures { PlainKeepsSound }
{}

/// A group with sound data leaves soundness to what follows it, one level above its data.
#[tactic(auto, using(crate::proofs::Written::group_keeps_sound))]
pub fn group_keeps_sound()
    ensures { GroupKeepsSound }
{}

/// All that is written is sound, if the data of its groups are, one level below.
#[tactic(auto, using(crate::proofs::Written::parts_sound))]
pub fn parts_sound()
    ensures { PartsSound }
{}
