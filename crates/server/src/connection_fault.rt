//! The faults of a server. Each is printed as its name.

ghost use Rattle.std.specs.Prelude.{◌≡◌, Some};
ghost use Rattle.server.specs.Names.{fault_name, selftest_fault_name};

use std::fmt;
use web::ServeFault;

/// Why a connection wasn't served.
#[derive(Clone, Copy, Debug, PartialEq, Eq)]
pub enum Fault {
    /// No connection could be accepted.
    Socket,
    /// The clock failed, or its time is after the latest one.
    Clock,
    /// The request wasn't served.
    Serving(ServeFault),
}

impl Fault {
    /// The fault's name.
    pub fn name(self) -> &'static str
        ensures { result.now ≡ fault_name self }
    {
        match self {
            Fault::Socket => "Socket",
            Fault::Clock => "Clock",
            Fault::Serving(ServeFault::Read) => "Read",
            Fault::Serving(ServeFault::Nonces) => "Nonces",
            Fault::Serving(ServeFault::Store) => "Store",
            Fault::Serving(ServeFault::NoMemory) => "NoMemory",
            Fault::Serving(ServeFault::Write) => "Write",
        }
    }
}

impl fmt::Display for Fault {
    ghost output = { λ fault. Some (fault_name fault) };

    fn fmt<W: fmt::Write>(&self, f: &mut fmt::Formatter<W>) -> fmt::Result {
        f.write_str(self.name())
    }
}

/// Why a server didn't pass its own test.
#[derive(Clone, Copy, Debug, PartialEq, Eq)]
pub enum SelftestFault {
    /// The connection wasn't made or wasn't served.
    Unserved(Fault),
    /// The answer isn't the list of an office with nothing revoked.
    Mismatch,
}

impl SelftestFault {
    /// The fault's name.
    pub fn name(self) -> &'static str
        ensures { result.now ≡ selftest_fault_name self }
    {
        match self {
            SelftestFault::Unserved(fault) => fault.name(),
            SelftestFault::Mismatch => "Mismatch",
        }
    }
}

impl fmt::Display for SelftestFault {
    ghost output = { λ fault. Some (selftest_fault_name fault) };

    fn fmt<W: fmt::Write>(&self, f: &mut fmt::Formatter<W>) -> fmt::Result {
        f.write_str(self.name())
    }
}
