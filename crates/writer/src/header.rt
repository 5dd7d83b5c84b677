//! The header of a message.
ghost use Rattle.writer.specs.Headers.{header_bytes};
ghost use Rattle.writer.specs.Stores.{Appends, room};

use crate::writer::Writer;
use diameter::header::Header;

impl Writer<'_> {
    /// The header of a message, in version 1 whatever `header.version` says.
    pub fn message_header(&mut self, header: Header)
        requires { room 20 self.old }
        ensures { Appends self.old (header_bytes header) self.new }
    {
        self.byte(1);
        self.u24(header.length);
        self.byte(header.flags);
        self.u24(header.command);
        self.u32(header.application);
        self.u32(header.hop_by_hop);
        self.u32(header.end_to_end);
    }
}
