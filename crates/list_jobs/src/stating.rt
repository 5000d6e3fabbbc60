//! Judging one list, and printing the line of the answer.

ghost use Rattle.std.specs.Prelude.{◌≡◌, IfErr, IfOk, OnErr, OnOk};
ghost use Rattle.std.specs.Io.KnownBytes.{Appends};
ghost use Rattle.wire.specs.Streams.{AppendsBeginning};
ghost use Rattle.list_guard.specs.Judged.{question};
ghost use Rattle.list_guard.specs.Statements.{answer_line};
ghost use Rattle.list_jobs.specs.Stating.{States, register_fault};
ghost use Rattle.station_jobs.specs.Faults.{IsOfAnAnswer};

use list_guard::{Answer, ListRegister, RegisterFault, judge_list, put_answer};
use station_jobs::{StationFault, Surroundings, print};
use std::alloc::Global;
use std::io::{Read, Write};
use text::Text;

/// A register's fault as a fault of the station.
fn register_fault(fault: RegisterFault) -> StationFault
    ensures { result ≡ register_fault fault }
{
    match fault {
        RegisterFault::NoMemory => StationFault::NoMemory,
        RegisterFault::Device => StationFault::Device,
        RegisterFault::Damaged => StationFault::Damaged,
    }
}

/// Prints the line of an answer. After a fault, a beginning of it may have been printed.
fn print_answer<W: Write>(
    alloc: Global,
    answer: Answer,
    moment: u64,
    out: &mut W,
) -> Result<(), StationFault>
    ensures ok { OnOk result (Appends (W.contents out.old) (W.contents out.new) (answer_line answer moment)) }
    ensures err { OnErr result (AppendsBeginning (W.contents out.old) (W.contents out.new)
        (answer_line answer moment)) }
    ensures only { IfErr result IsOfAnAnswer }
{
    let mut line = Vec::new(alloc);
    match put_answer(&mut line, answer, moment) {
        Ok(()) => print(out, line.as_slice()),
        Err(_) => Err(StationFault::NoMemory),
    }
}

/// Judges a list, and prints the line of the answer once the register keeps an approved list.
pub fn state_list<F: Read + Drop, P: Surroundings<File = F>, G: ListRegister, W: Write>(
    alloc: Global,
    around: &P,
    register: &mut G,
    keys: &[[u8; 32]],
    begins: bool,
    list: Text,
    out: &mut W,
) -> Result<(), StationFault>
    ensures { States P.Surroundings around.now G.ListRegister (question keys.now begins list)
        (W.contents out.old) (W.contents out.new) register.old register.new result }
{
    let Some(moment) = around.moment() else {
        drop(list);
        return Err(StationFault::Clock);
    };
    match judge_list(register, keys, begins, list) {
        Ok(answer) => print_answer(alloc, answer, moment, out),
        Err(fault) => Err(register_fault(fault)),
    }
}
