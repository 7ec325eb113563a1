//! The mode `check`.
ghost use Rattle.std.specs.Prelude.{◌≡◌, ◌+◌, Ok, IfOk, IfErr, OnOk, string_bytes};
ghost use Rattle.wp_cert.specs.declared.tree.CertWhy.TheVariants as cert_why;
ghost use Rattle.wp_outside.specs.Outside.{NoneFalls, SameBytes};
ghost use Rattle.wp_top.specs.Ends.{IsOutput, ReadsWithin, check_job, of_run};
ghost use Rattle.wp_top.specs.Runs.{IsRefusedCertificate, ShowsBound, bound_line};
ghost use Rattle.wp_top.specs.Stops.{HasRightText, StopsAt, StopsFor, of_certificate, stop_at_certificate};
ghost use Rattle.wp_top.specs.Stores.{no_disk};

use crate::complaint::{Complaint, Finding, Stop};
use crate::input::Input;
use crate::reading::{layout_from, read_text};
use std::alloc::Global;
use std::fmt::Write;
use wp_cert::{CertFault, CertWhy, check, read_certificate};
use wp_graph::Layout;
use wp_model::Memory;
use wp_outside::Files;
use wp_words::CheckWords;

// The bound that the text of a certificate shows.
fn bound_of(alloc: Global, layout: &Layout, text: &Vec<u8>) -> Result<u64, CertFault>
    ensures right { IfOk result (ShowsBound layout.now text.now.items) }
    ensures wrong { IfErr result (λ fault. (fault.why ≡ cert_why.Memory → ⊥)
        → IsRefusedCertificate layout.now text.now.items fault) }
{
    let read = read_certificate(alloc, text, layout)?;
    check(alloc, &read.wave, read.capacity, &read.tree)
}

// Why a run stops at the fault of a certificate.
fn stop_at(fault: CertFault) -> Stop
    ensures { result ≡ stop_at_certificate fault }
{
    match fault.why {
        CertWhy::Memory => Stop::Memory,
        _ => Stop::Complaint(Complaint::Wrong(Finding::Certificate(fault))),
    }
}

fn check_text(alloc: Global, layout: &Layout, text: &Vec<u8>) -> Result<u64, Stop>
    ensures right { IfOk result (ShowsBound layout.now text.now.items) }
    ensures wrong { IfErr result (StopsFor (of_certificate layout.now text.now.items)) }
{
    match bound_of(alloc, layout, text) {
        Ok(bound) => Ok(bound),
        Err(fault) => Err(stop_at(fault)),
    }
}

fn line_of(alloc: Global, bound: u64) -> Result<String, Memory>
    ensures { IfOk result (λ text. string_bytes text ≡ bound_line bound) }
{
    let mut text = String::new(alloc);
    writeln!(text, "bound {bound}")?;
    Ok(text)
}

// The bound that the certificate of this name shows.
fn shown_in<F: Files>(
    alloc: Global,
    files: &mut F,
    layout: &Layout,
    name: &str,
) -> Result<u64, Stop>
    ensures shown { IfOk result (λ bound. HasRightText (F.told files.old).holds name.now
        (λ text. ShowsBound layout.now text bound)) }
    ensures stops { IfErr result (StopsAt (of_certificate layout.now) (F.told files.old)
        (F.told files.new) name.now Input.Certificate) }
    ensures same { SameBytes (F.told files.old).holds (F.told files.new).holds }
    ensures counts { NoneFalls (F.told files.old).faults (F.told files.new).faults }
    ensures once { OnOk result ((F.told files.new).reads ≡ (F.told files.old).reads + 1) }
    ensures reads { ReadsWithin (F.told files.old) (F.told files.new) 1 }
{
    let certificate = read_text(alloc, files, name, Input::Certificate)?;
    check_text(alloc, layout, &certificate)
}

/// The output of a check.
pub fn check_output<F: Files>(
    alloc: Global,
    files: &mut F,
    words: &CheckWords,
) -> Result<Vec<u8>, Stop>
    ensures output { IfOk result (λ text. IsOutput (Ok (check_job words.now)) no_disk
        (F.told files.old) (F.told files.new) text.items) }
    ensures stops { IfErr result (StopsFor (of_run (Ok (check_job words.now)) no_disk
        (F.told files.old) (F.told files.new))) }
    ensures same { SameBytes (F.told files.old).holds (F.told files.new).holds }
    ensures counts { NoneFalls (F.told files.old).faults (F.told files.new).faults }
    ensures reads { ReadsWithin (F.told files.old) (F.told files.new) 2 }
{
    let layout = layout_from(alloc, files, words.layout.as_str())?;
    let bound = shown_in(alloc, files, &layout, words.certificate.as_str())?;
    let line = line_of(alloc, bound)?;
    Ok(line.into_bytes())
}
