//! How a run of `waves` ends.
ghost use Rattle.std.specs.Prelude.{◌≡◌, ◌+◌, false, Err, IfOk, OnOk, OnErr, IsErrOf, string_bytes};
ghost use Rattle.wp_outside.specs.Outside.{Grows, TookPart, TookPrefix};
ghost use Rattle.wp_outside.specs.declared.sink.SinkFault.TheVariants as sink_fault;
ghost use Rattle.wp_top.specs.declared.status.Status.TheVariants as status;
ghost use Rattle.wp_waves_top.specs.Ends.{Finishes, complains, status_of, text_of};
ghost use Rattle.wp_waves_top.specs.Stops.{FinishesWaves, IsEndOf, end_of};
ghost use Rattle.wp_waves_top.specs.Texts.{waves_complaint_line};
ghost use Rattle.wp_waves_top.specs.declared.complaint.WavesComplaint.TheVariants as waves_complaint;

use crate::complaint::{WavesComplaint, WavesStop};
use std::alloc::Global;
use std::fmt::Write;
use wp_model::Memory;
use wp_outside::{Sink, SinkFault, write_text};
use wp_top::complaint::Complaint;
use wp_top::status::Status;

/// How a run ends, where its text is taken.
#[derive(Drop)]
pub enum Ending {
    /// With this output.
    Done(Vec<u8>),
    /// With the line of a complaint.
    Complaint(WavesComplaint),
}

// The status of a complaint as other runs say it.
fn shared_status(why: &Complaint) -> Status
    ensures { result ≡ status_of (complains (waves_complaint.Shared why.now)) }
{
    match why {
        Complaint::Words(_) => Status::BadWords,
        Complaint::Refused(..) => Status::Refused,
        Complaint::Fault(_) => Status::ReadFault,
        Complaint::Wrong(_) => Status::Wrong,
        Complaint::Store => Status::StoreFault,
    }
}

impl Ending {
    fn status(&self) -> Status
        ensures { result ≡ status_of (end_of self.now) }
    {
        match self {
            Ending::Done(_) => Status::Done,
            Ending::Complaint(WavesComplaint::Shared(why)) => shared_status(why),
            Ending::Complaint(WavesComplaint::OpenRefused(_)) => Status::Refused,
            Ending::Complaint(WavesComplaint::OpenFault) => Status::ReadFault,
        }
    }
}

fn ending_with(output: Result<Vec<u8>, WavesStop>) -> Result<Ending, Memory>
    ensures { IfOk result (IsEndOf output) }
{
    match output {
        Ok(text) => Ok(Ending::Done(text)),
        Err(WavesStop::Complaint(why)) => Ok(Ending::Complaint(why)),
        Err(WavesStop::Memory) => Err(Memory),
    }
}

fn line_of(alloc: Global, complaint: WavesComplaint) -> Result<String, Memory>
    ensures { IfOk result (λ text. string_bytes text ≡ waves_complaint_line complaint) }
{
    let mut text = String::new(alloc);
    writeln!(text, "{complaint}")?;
    Ok(text)
}

fn write_line<K: Sink>(
    alloc: Global,
    complaint: WavesComplaint,
    out: &mut K,
) -> Result<(), SinkFault>
    ensures whole { OnOk result (Grows (K.told out.old).taken (K.told out.new).taken
        (waves_complaint_line complaint)) }
    ensures prefix { TookPrefix (K.told out.old).taken (K.told out.new).taken
        (waves_complaint_line complaint) }
    ensures part { IsErrOf result sink_fault.Failed
        → TookPart (K.told out.old).taken (K.told out.new).taken (waves_complaint_line complaint) }
    ensures counted { IsErrOf result sink_fault.Failed
        → (K.told out.new).faults ≡ (K.told out.old).faults + 1 }
    ensures uncounted { (IsErrOf result sink_fault.Failed → ⊥)
        → (K.told out.new).faults ≡ (K.told out.old).faults }
    ensures sound { OnOk result ((K.told out.new).stopped ≡ (K.told out.old).stopped) }
    ensures early { (K.told out.old).stopped ≡ false
        → (K.told out.new).late ≡ (K.told out.old).late }
{
    let line = line_of(alloc, complaint)?;
    write_text(out, line.as_bytes())
}

fn write_ending<K: Sink>(alloc: Global, ending: &Ending, out: &mut K) -> Result<(), SinkFault>
    ensures whole { OnOk result (Grows (K.told out.old).taken (K.told out.new).taken
        (text_of (end_of ending.now))) }
    ensures prefix { TookPrefix (K.told out.old).taken (K.told out.new).taken
        (text_of (end_of ending.now)) }
    ensures part { IsErrOf result sink_fault.Failed
        → TookPart (K.told out.old).taken (K.told out.new).taken (text_of (end_of ending.now)) }
    ensures counted { IsErrOf result sink_fault.Failed
        → (K.told out.new).faults ≡ (K.told out.old).faults + 1 }
    ensures uncounted { (IsErrOf result sink_fault.Failed → ⊥)
        → (K.told out.new).faults ≡ (K.told out.old).faults }
    ensures sound { OnOk result ((K.told out.new).stopped ≡ (K.told out.old).stopped) }
    ensures early { (K.told out.old).stopped ≡ false
        → (K.told out.new).late ≡ (K.told out.old).late }
{
    match ending {
        Ending::Done(text) => write_text(out, text.as_slice()),
        Ending::Complaint(complaint) => write_line(alloc, *complaint, out),
    }
}

// Writes the text of an ending, and gives the status: the ending's, or that the sink failed, or that memory ran out.
fn end_with<K: Sink>(alloc: Global, ending: &Ending, out: &mut K) -> Status
    ensures finishes { Finishes (end_of ending.now) (K.told out.old) (K.told out.new) result }
    ensures early { (K.told out.old).stopped ≡ false
        → (K.told out.new).late ≡ (K.told out.old).late }
{
    match write_ending(alloc, ending, out) {
        Ok(()) => ending.status(),
        Err(SinkFault::Failed) => Status::WriteFault,
        Err(SinkFault::Memory) => Status::OutOfMemory,
    }
}

// Ends a run, whose ending may lack memory, and gives the status.
fn finish<K: Sink>(alloc: Global, ending: Result<Ending, Memory>, out: &mut K) -> Status
    ensures finishes { IfOk ending (λ ended. Finishes (end_of ended) (K.told out.old)
        (K.told out.new) result) }
    ensures nothing { OnErr ending ((result ≡ status.OutOfMemory)
        × (K.told out.new ≡ K.told out.old)) }
    ensures early { (K.told out.old).stopped ≡ false
        → (K.told out.new).late ≡ (K.told out.old).late }
{
    match ending {
        Ok(ending) => end_with(alloc, &ending, out),
        Err(_) => Status::OutOfMemory,
    }
}

/// Writes the output of waves, or why there is none, and gives the status.
pub fn end_waves<K: Sink>(alloc: Global, output: Result<Vec<u8>, WavesStop>, out: &mut K) -> Status
    ensures ended { FinishesWaves output (K.told out.old) (K.told out.new) result }
    ensures early { (K.told out.old).stopped ≡ false
        → (K.told out.new).late ≡ (K.told out.old).late }
{
    finish(alloc, ending_with(output), out)
}
