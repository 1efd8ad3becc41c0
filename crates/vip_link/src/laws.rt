//! What is proved of both ROMs, each law the contract of a function without parameters.

ghost use Rattle.std.specs.Prelude.{Ok};
ghost use Rattle.vip_link.specs.Checked.{ComparesLink};
ghost use Rattle.vip_link.specs.Laws.{AlwaysDelivers, NumbersDeliver, PairsDeliver, TurnsDeliver};

/// For every message of at most 3,000 bytes and every schedule: what A sent is a prefix of the message, what B received is a prefix of that and at
/// most one byte shorter, that byte is on the wire, B's RAM holds what was received from 0200 on, and both displays are off. After a schedule in which
/// B moves right behind A 40 (n + 2) times or more, with n the message's length, B received the message; so it did after as many pairs A, B, and after
/// 1,320 (n + 2) moves of any number's schedule. A call does nothing: the law is its contract.
pub fn every_schedule()
    ensures always { AlwaysDelivers }
    ensures turns { TurnsDeliver }
    ensures pairs { PairsDeliver }
    ensures numbers { NumbersDeliver }
{}

/// The texts of SENDER and RECEIVER assemble, and to exactly the bytes of their ROMs. So `check_link` answers that all is fine, or that no memory was
/// found. It is proved by computing both assemblies. A call does nothing: the law is its contract.
pub fn sources_give_roms()
    ensures { ComparesLink (Ok tt) }
{}
