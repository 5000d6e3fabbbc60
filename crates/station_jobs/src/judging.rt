//! Judging unsigned certificates (bodies) in order, and printing the line of each answer.

ghost use Rattle.std.specs.Prelude.{◌≡◌, ◌≢◌, ◌<◌, ◌≤◌, ◌^◌, ◌∷◌, ◌⊎◌, [], take, map, string_bytes, IfErr, IfOk};
ghost use Rattle.std.specs.Prelude.{IfSome, OnErr, OnOk};
ghost use Rattle.std.specs.List.{flat_map};
ghost use Rattle.std.specs.Io.KnownBytes.{Appends};
ghost use Rattle.wire.specs.Streams.{AppendsBeginning};
ghost use Rattle.guard.specs.AnswerLines.{answer_line};
ghost use Rattle.guard.specs.Decided.{questions};
ghost use Rattle.guard.specs.Machine.{State};
ghost use Rattle.station_jobs.specs.Faults.{IsOfABody, IsOfAQuestion, IsOfAnAnswer, IsOfBodies};
ghost use Rattle.station_jobs.specs.Judging.{Asks, Judges};
ghost use Rattle.station_jobs.specs.Leaving.{Leaves, OfBodies, OfQuestions};
ghost use Rattle.station_jobs.specs.Reported.{PassesOn};
ghost use Rattle.station_jobs.specs.Steps.{AnswersAll, Weighs};

use crate::file_reader::read_body;
use crate::output::print;
use crate::station_fault::StationFault;
use crate::surroundings::Surroundings;
use guard::{Answer, Policy, Register, Window, judge, put_answer};
use std::alloc::Global;
use std::io::{Read, Write};
use text::{NoMemory, Text};

/// The lines of answers.
fn lines_of(alloc: Global, answers: &[Answer]) -> Result<Vec<u8>, NoMemory>
    ensures { IfOk result (λ text. text.items ≡ flat_map answer_line answers.now) }
{
    let mut text = Vec::new(alloc);
    for answer in answers {
        put_answer(&mut text, *answer)?;
    }
    Ok(text)
}

/// Prints the lines of answers. After a fault, a prefix of them may have been printed.
fn print_answers<W: Write>(
    alloc: Global,
    answers: &[Answer],
    out: &mut W,
) -> Result<(), StationFault>
    ensures ok { OnOk result (Appends (W.contents out.old) (W.contents out.new) (flat_map answer_line answers.now)) }
    ensures err { OnErr result
        (AppendsBeginning (W.contents out.old) (W.contents out.new) (flat_map answer_line answers.now)) }
    ensures only { IfErr result IsOfAnAnswer }
    ensures silent { IfErr result (λ e. e ≢ StationFault.Write → W.contents out.new ≡ W.contents out.old) }
{
    match lines_of(alloc, answers) {
        Ok(text) => print(out, text.as_slice()),
        Err(NoMemory) => Err(StationFault::NoMemory),
    }
}

/// Judges bodies in order, and prints the answers after the register has stored what is signed, all at once. The time
/// is below 2^63.
#[tactic(auto, using(crate::proofs::Causes::question_of_a_register, crate::proofs::Causes::question_of_an_answer))]
pub fn judge_bodies<G: Register, W: Write>(
    alloc: Global,
    register: &mut G,
    policy: &Policy,
    window: Window,
    bodies: &[Text],
    out: &mut W,
) -> Result<(), StationFault>
    requires { window.moment < 2 ^ 63 }
    ensures honest { G.is_honest register.new → G.is_honest register.old }
    ensures answers { G.is_honest register.new → (s : State) → G.keeps register.old s
        → AnswersAll s (Leaves G.Register (OfQuestions (questions policy.now window bodies.now))
        register.old register.new s)
        (questions policy.now window bodies.now) (W.contents out.old) (W.contents out.new) result }
    ensures only { IfErr result IsOfAQuestion }
    ensures reported { PassesOn (G.reported register.old) (G.reported register.new) result }

    // Whatever the register keeps, only a fault of printing comes after a change of it.
    ensures before { G.is_honest register.new
        → IfErr result (λ e. IsOfAnAnswer e ⊎ G.is_as_before register.old register.new) }

    // Nor is anything printed beside a fault other than that of the output.
    ensures silent { IfErr result (λ e. e ≢ StationFault.Write → W.contents out.new ≡ W.contents out.old) }
{
    match judge(alloc, register, policy, window, bodies) {
        Ok(answers) => print_answers(alloc, answers.as_slice(), out),
        Err(fault) => Err(StationFault::from(fault)),
    }
}

/// The body in a file, and the time at which it is judged.
#[tactic(auto, using(crate::proofs::Causes::of_a_body))]
fn weighed<F: Read + Drop, P: Surroundings<File = F>>(
    alloc: Global,
    around: &P,
    path: &str,
) -> Result<(Vec<u8>, u64), StationFault>
    ensures weighs { IfOk result (λ r. Weighs P.Surroundings around.now F.remaining path.now r.0.items r.1) }
    ensures low { IfOk result (λ r. r.1 < 2 ^ 63) }
    ensures only { IfErr result IsOfABody }
{
    let file = around.open(path)?;
    let body = read_body(alloc, file)?;
    match around.moment() {
        Some(moment) => Ok((body, moment)),
        None => Err(StationFault::Clock),
    }
}

/// Judges the body in a file, and prints the line of the answer.
#[tactic(auto, using(crate::proofs::Causes::bodies_of_a_body, crate::proofs::Causes::bodies_of_a_question))]
pub fn judge_file<F: Read + Drop, P: Surroundings<File = F>, G: Register, W: Write>(
    alloc: Global,
    around: &P,
    register: &mut G,
    policy: &Policy,
    ahead: u64,
    path: &str,
    out: &mut W,
) -> Result<(), StationFault>
    ensures honest { G.is_honest register.new → G.is_honest register.old }
    ensures judges { G.is_honest register.new → (s : State) → G.keeps register.old s
        → Judges 1 s (Leaves G.Register
        (OfBodies 1 (Asks P.Surroundings around.now F.remaining (λ p. p ≡ policy.now) ahead)) register.old register.new s)
        (Asks P.Surroundings around.now F.remaining (λ p. p ≡ policy.now) ahead) (path.now ∷ []) (W.contents out.old)
        (W.contents out.new) result }
    ensures only { IfErr result IsOfBodies }
    ensures reported { PassesOn (G.reported register.old) (G.reported register.new) result }
    ensures before { G.is_honest register.new
        → IfErr result (λ e. IsOfAnAnswer e ⊎ G.is_as_before register.old register.new) }
{
    match weighed(alloc, around, path) {
        Ok((body, moment)) => {
            let window = Window { moment, ahead };
            let bodies = [Text::from_vec(body)];
            judge_bodies(alloc, register, policy, window, &bodies, out)
        }
        Err(fault) => Err(fault),
    }
}

/// Judges the bodies in files in order, and prints the line of each answer.
///
/// # Errors
///
/// The first fault ends it: `File`, `Clock`, `Write`, `NoMemory`, or that of the register. Lines printed before it
/// remain.
pub fn judge_files<F: Read + Drop, P: Surroundings<File = F>, G: Register, W: Write>(
    alloc: Global,
    around: &P,
    register: &mut G,
    policy: &Policy,
    ahead: u64,
    paths: &[String],
    out: &mut W,
) -> Result<(), StationFault>
    ensures honest { G.is_honest register.new → G.is_honest register.old }
    ensures judges { G.is_honest register.new → (s : State) → G.keeps register.old s
        → Judges 1 s (Leaves G.Register
        (OfBodies 1 (Asks P.Surroundings around.now F.remaining (λ p. p ≡ policy.now) ahead)) register.old register.new s)
        (Asks P.Surroundings around.now F.remaining (λ p. p ≡ policy.now) ahead) (map string_bytes paths.now)
        (W.contents out.old) (W.contents out.new) result }
    ensures only { IfErr result IsOfBodies }

    // Whatever the register keeps, a fault that it reports is the one that is returned.
    ensures reported { PassesOn (G.reported register.old) (G.reported register.new) result }
{
    for path in paths {
        let path = path.as_str();
        match judge_file(alloc, around, register, policy, ahead, path, out) {
            Ok(()) => {}
            Err(fault) => return Err(fault),
        }
    }
    Ok(())
}
