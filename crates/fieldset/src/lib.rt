//! Sets of fields and of events, each kept in the bits of one number.
#![tactic(auto)]

mod field;
mod fields;
mod set;

pub use field::{Field, FieldSet, NoSuchField};
pub use fields::Fields;
pub use set::BitSet;

/// A set of events: 0 is a logon, 1 to 8 a change of the field of that number, 9 a change of address, 10 a logoff.
pub type EventSet = BitSet<11>;

#[cfg(test)]
mod tests {
    use super::*;

    #[test]
    fn fields_ascend(rt: HostRuntime) {
        let set = FieldSet::from_bits_truncate(0b11_0010);
        assert_eq!(rt; set.len(), 3);
        let mut fields = set.fields();
        assert_eq!(rt; fields.next(), Some(Field::LocationInformation));
        assert_eq!(rt; fields.next(), Some(Field::TerminalType));
        assert_eq!(rt; fields.next(), Some(Field::LogicalAccessId));
        assert_eq!(rt; fields.next(), None);
    }

    #[test]
    fn high_bits_are_refused(rt: HostRuntime) {
        assert_eq!(rt; FieldSet::from_bits(1024), None);
        assert_eq!(rt; EventSet::from_bits(2048), None);
        assert!(rt; EventSet::from_bits(1024).is_some());
    }
}
