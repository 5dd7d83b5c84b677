//! What is printed of a request that was read, or of its refusal.
use diameter::avp::AvpName;
use dictionary::address::AddressView;
use fieldset::BitSet;
use request::asking::{Asked, FaultyAvp, Rejection, Request, Target};
use std::fmt;

/// A text as it is where it can be printed, else as `0x` and its digits.
#[derive(Clone, Copy)]
struct Printable<'a>(&'a [u8]);

impl fmt::Display for Printable<'_> {
    fn fmt<W: fmt::Write>(&self, f: &mut fmt::Formatter<W>) -> fmt::Result {
        match str::from_utf8(self.0) {
            Ok(text) if text.bytes().all(|c| c.is_ascii_graphic()) => f.write_str(text),
            _ => {
                f.write_str("0x")?;
                for c in self.0 {
                    write!(f, "{c:02x}")?;
                }
                Ok(())
            }
        }
    }
}

/// The members of a set, with commas between.
#[derive(Clone, Copy)]
struct Members<const WIDTH: u32>(BitSet<WIDTH>);

impl<const WIDTH: u32> fmt::Display for Members<WIDTH> {
    fn fmt<W: fmt::Write>(&self, f: &mut fmt::Formatter<W>) -> fmt::Result {
        let mut mark = ' ';
        for k in (0..16u8).filter(|k| self.0.contains(*k)) {
            write!(f, "{mark}{k}")?;
            mark = ',';
        }
        Ok(())
    }
}

/// What is asked, as the rest of a sentence.
#[derive(Clone, Copy)]
struct Demand(Asked);

impl fmt::Display for Demand {
    fn fmt<W: fmt::Write>(&self, f: &mut fmt::Formatter<W>) -> fmt::Result {
        match self.0 {
            Asked::UserData { requested: None } => f.write_str(", asks for every field"),
            Asked::UserData {
                requested: Some(fields),
            } => write!(f, ", asks for fields{}", Members(fields)),
            Asked::Subscribe { events, end: None } => {
                write!(f, ", subscribes to events{}", Members(events))
            }
            Asked::Subscribe {
                events,
                end: Some(end),
            } => write!(f, ", subscribes to events{} until {end}", Members(events)),
            Asked::Unsubscribe { events } => {
                write!(f, ", unsubscribes from events{}", Members(events))
            }
        }
    }
}

/// Whom a request is about.
#[derive(Clone, Copy)]
struct Subject<'a>(Target<'a>);

impl fmt::Display for Subject<'_> {
    fn fmt<W: fmt::Write>(&self, f: &mut fmt::Formatter<W>) -> fmt::Result {
        match self.0 {
            Target::Address(AddressView { ip, realm }) => {
                let mut mark = " of ";
                for byte in ip {
                    write!(f, "{mark}{byte}")?;
                    mark = ".";
                }
                write!(f, " in {}", Printable(realm))
            }
            Target::User(user) => write!(f, " of user {}", Printable(user)),
        }
    }
}

/// The name of an AVP.
#[derive(Clone, Copy)]
struct Name(AvpName);

impl fmt::Display for Name {
    fn fmt<W: fmt::Write>(&self, f: &mut fmt::Formatter<W>) -> fmt::Result {
        let AvpName { code, vendor } = self.0;
        if vendor == 0 {
            write!(f, ": AVP {code}")
        } else {
            write!(f, ": AVP {code} of vendor {vendor}")
        }
    }
}

/// What is asked, or which AVP is at fault.
#[derive(Clone, Copy)]
pub struct Told<'r, 'a>(pub &'r Result<Request<'a>, Rejection<'a>>);

impl fmt::Display for Told<'_, '_> {
    fn fmt<W: fmt::Write>(&self, f: &mut fmt::Formatter<W>) -> fmt::Result {
        match self.0 {
            Ok(request) => {
                let subject = Subject(request.target);
                write!(f, "{}{subject}", Demand(request.asked))
            }
            Err(rejection) => match rejection.faulty {
                None => Ok(()),
                Some(FaultyAvp::Present(avp)) => write!(f, "{}", Name(avp.name())),
                Some(FaultyAvp::Missing(known)) => write!(f, "{}", Name(known.name())),
            },
        }
    }
}
