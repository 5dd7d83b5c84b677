//! Who sends a message.
ghost use Rattle.std.specs.Prelude.{◌≡◌, ◌≤◌, length};
ghost use Rattle.message.specs.Limits.{name_limit};

/// A host and its realm, each of at most 64 bytes.
#[derive(Clone, Copy)]
pub struct Origin<'a> {
    host: &'a [u8],
    realm: &'a [u8],
    ghost host_fits: { length host.now ≤ name_limit },
    ghost realm_fits: { length realm.now ≤ name_limit },
}

impl<'a> Origin<'a> {
    pub fn new(host: &'a [u8], realm: &'a [u8]) -> Origin<'a>
        requires { (length host.now ≤ name_limit) × (length realm.now ≤ name_limit) }
        ensures host { result.host.now ≡ host.now }
        ensures realm { result.realm.now ≡ realm.now }
    {
        Origin { host, realm }
    }

    pub fn host(self) -> &'a [u8]
        ensures is { result.now ≡ self.entry.host.now }
        ensures fits { length result.now ≤ name_limit }
    {
        self.host
    }

    pub fn realm(self) -> &'a [u8]
        ensures is { result.now ≡ self.entry.realm.now }
        ensures fits { length result.now ≤ name_limit }
    {
        self.realm
    }
}
