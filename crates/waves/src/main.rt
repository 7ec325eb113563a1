//! `waves` says which open orders go out now, and together.
#![tactic(auto)]

ghost use Rattle.std.specs.Prelude.{◌≡◌, ◌≢◌, ◌∷◌, [], map, drop, codes, string_bytes, IfOk, IfErr, OnErr};
ghost use Rattle.std.specs.IoError.{error_kind};
ghost use Rattle.std.specs.Process.{exit_status};
ghost use Rattle.std.specs.Vec.Iter.{into_iter_items};
ghost use Rattle.std.specs.declared.io.ErrorKind.TheVariants.{InvalidData};
ghost use Rattle.waves.specs.Given.{EndsFor, LacksWords};
ghost use Rattle.wp_waves_top.specs.Promise.{Keeps, course};
ghost use Rattle.wp_waves_words.specs.Words.{waves_asked};
ghost use Rattle.wp_words.specs.Reading.{texts_of};

use std::alloc::{AllocError, Global};
use std::env::Args;
use std::process::ExitCode;
use std::sync::Wait;
use std::thread::Threads;
use std::{env, io};
use wp_outside::{Files, Gate, OpenGate, RealFiles, Sink, StdSink, SystemFiles, SystemWriter};
use wp_top::Resources;
use wp_waves_top::run_waves;

// Words that stand for those of which one isn't UTF-8: the mode without its options, which is refused as bad words.
fn bad_words(alloc: Global) -> Result<Vec<String>, AllocError>
    ensures { IfOk result (λ words. map string_bytes words.items ≡ codes "waves" ∷ []) }
{
    let words = vec![in alloc; String::from_str(alloc, "waves")?]?;
    Ok(words)
}

fn all_of(alloc: Global, given: Args) -> Result<Vec<String>, AllocError>
    ensures { IfOk result (λ words. words.items ≡ into_iter_items given) }
{
    let mut left = given;
    let mut words = Vec::new(alloc);
    while let Some(word) = left.next() {
        words.push(word)?;
    }
    Ok(words)
}

// The words after the program's name.
fn after_name(alloc: Global, given: Args) -> Result<Vec<String>, AllocError>
    ensures { IfOk result (λ words. words.items ≡ drop 1 (into_iter_items given)) }
{
    let mut left = given;
    let _name = left.next();
    all_of(alloc, left)
}

// The words of the command line, by what the system gives: the program's name and the words after it, or a fault.
fn words_given(alloc: Global, given: io::Result<Args>) -> Result<Vec<String>, AllocError>
    ensures given { IfOk given (λ given. IfOk result
        (λ words. words.items ≡ drop 1 (into_iter_items given))) }
    ensures fault { IfErr given (λ fault. IfOk result
        (λ words. (error_kind fault ≡ InvalidData)
        × (map string_bytes words.items ≡ codes "waves" ∷ []))) }
{
    match given {
        Ok(given) => after_name(alloc, given),
        Err(fault) if fault.kind() == io::ErrorKind::InvalidData => bad_words(alloc),
        Err(_) => Err(AllocError),
    }
}

// The end of a run of these words, where there was memory for them.
fn end_of<R: Threads + Wait + Sync, F: Files, K: Sink, G: Gate>(
    resources: &Resources<'_, R, G>,
    words: Result<Vec<String>, AllocError>,
    files: &mut F,
    out: &mut K,
) -> ExitCode
    ensures runs { IfOk words (λ words. Keeps (waves_asked (texts_of words.items))
        (course (F.told files.old) (K.told out.old) (F.told files.new) (K.told out.new))
        (exit_status result)) }
    ensures lacks { OnErr words (LacksWords (course (F.told files.old) (K.told out.old)
        (F.told files.new) (K.told out.new)) (exit_status result)) }
{
    match words {
        Ok(words) => ExitCode::from(run_waves(resources, &words, files, out)),
        Err(AllocError) => ExitCode::from(5),
    }
}

// The end of the run that the system's words ask for: as `run_waves` promises for the words after the program's name,
// or for bad words where one isn't UTF-8; or 5, and nothing done, where there is no memory for the words.
fn run_given<R: Threads + Wait + Sync, F: Files, K: Sink, G: Gate>(
    resources: &Resources<'_, R, G>,
    given: io::Result<Args>,
    files: &mut F,
    out: &mut K,
) -> ExitCode
    ensures given { IfOk given (λ given. EndsFor
        (waves_asked (texts_of (drop 1 (into_iter_items given))))
        (course (F.told files.old) (K.told out.old) (F.told files.new) (K.told out.new))
        (exit_status result)) }
    ensures bad { OnErr given (EndsFor (waves_asked (codes "waves" ∷ []))
        (course (F.told files.old) (K.told out.old) (F.told files.new) (K.told out.new))
        (exit_status result)) }
    ensures lacks { IfErr given (λ fault. error_kind fault ≢ InvalidData → LacksWords
        (course (F.told files.old) (K.told out.old) (F.told files.new) (K.told out.new))
        (exit_status result)) }
{
    end_of(resources, words_given(resources.alloc, given), files, out)
}

fn main(rt: HostRuntime) -> ExitCode {
    let mut files = RealFiles::new(SystemFiles::of(&rt));
    let mut out = StdSink::new(SystemWriter::of(io::writer(&rt)));
    let resources = Resources {
        rt: &rt,
        alloc: rt.alloc(),
        gate: &OpenGate,
    };
    run_given(&resources, env::args(&rt), &mut files, &mut out)
}
