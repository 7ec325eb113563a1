ghost use Rattle.std.specs.Prelude.{IsTrue, IfOk};
ghost use Rattle.std.specs.List.{All};
ghost use Rattle.wp_model.specs.Plain.{is_plain};
ghost use Rattle.wp_model.specs.Tables.{AreReadOrders};

use crate::given::{Held, are_holds, stock_of};
use std::alloc::Global;
use std::fmt::Write;
use std::process::Abort;
use std::test::Fail;
use wp_machine::{Answer, Asking, Entry, Machine, Opening, Outcome, WaveState, answer_all};
use wp_model::{Command, Name};
use wp_tables::{Orders, Scripts, Stock, read_desks, read_orders};

/// How far the waves W1, W2 and W3 are.
type States = (Option<WaveState>, Option<WaveState>, Option<WaveState>);

/// How far they are after a command, and what its answer tells as held.
type Told = (States, &'static [Held]);

/// A stock, orders and the commands of desk 1, and what a machine tells after each.
#[derive(Clone, Copy)]
struct Story {
    stock: &'static str,
    orders: &'static str,
    desk: &'static str,
    told: &'static [Told],
}

const STORIES: [Story; 3] = [
    // A wave's state is changed by what is done to it, and not by what is refused.
    Story {
        stock: "location,article,on_hand\n1-1-L,A,3\n1-2-L,A,3\n",
        orders: "order,article,quantity\nO1,A,2\nO2,A,2\nO3,A,9\n",
        desk: "desk,command,arguments
1,submit,W1,O9
1,submit,W1,O1
1,allot,W1
1,submit,W2,O1
1,release,W1
1,submit,W2,O2
1,release,W2
1,submit,W3,O3
1,allot,W3
1,missing,W1,O1,1-1-L,1
1,cancel,W1
1,pick,W2,O2,1-1-L,1
1,cancel,W2
1,pick,W2,O2,1-2-L,1
1,cancel,W3
1,submit,W1,O1
",
        told: &[
            ((None, None, None), &[]),
            ((Some(WaveState::Submitted), None, None), &[]),
            ((Some(WaveState::Allotted), None, None), &[]),
            ((Some(WaveState::Allotted), None, None), &[]),
            ((Some(WaveState::Released), None, None), &[(0, 0, 2)]),
            (
                (Some(WaveState::Released), Some(WaveState::Submitted), None),
                &[],
            ),
            (
                (Some(WaveState::Released), Some(WaveState::Released), None),
                &[(0, 0, 1), (0, 1, 1)],
            ),
            (
                (
                    Some(WaveState::Released),
                    Some(WaveState::Released),
                    Some(WaveState::Submitted),
                ),
                &[],
            ),
            (
                (
                    Some(WaveState::Released),
                    Some(WaveState::Released),
                    Some(WaveState::Submitted),
                ),
                &[],
            ),
            (
                (
                    Some(WaveState::Released),
                    Some(WaveState::Released),
                    Some(WaveState::Submitted),
                ),
                &[(0, 1, 1)],
            ),
            (
                (
                    Some(WaveState::Cancelled),
                    Some(WaveState::Released),
                    Some(WaveState::Submitted),
                ),
                &[],
            ),
            (
                (
                    Some(WaveState::Cancelled),
                    Some(WaveState::Released),
                    Some(WaveState::Submitted),
                ),
                &[],
            ),
            (
                (
                    Some(WaveState::Cancelled),
                    Some(WaveState::Released),
                    Some(WaveState::Submitted),
                ),
                &[],
            ),
            (
                (
                    Some(WaveState::Cancelled),
                    Some(WaveState::Done),
                    Some(WaveState::Submitted),
                ),
                &[],
            ),
            (
                (
                    Some(WaveState::Cancelled),
                    Some(WaveState::Done),
                    Some(WaveState::Cancelled),
                ),
                &[],
            ),
            (
                (
                    Some(WaveState::Cancelled),
                    Some(WaveState::Done),
                    Some(WaveState::Cancelled),
                ),
                &[],
            ),
        ],
    },
    // What a wave holds is told by its orders, and of one order by the rows.
    Story {
        stock: "location,article,on_hand\n1-5-L,A,4\n1-1-R,B,2\n1-4-L,A,0\n1-1-L,A,3\n1-2-L,B,5\n",
        orders: "order,article,quantity\nO1,A,1\nO1,B,3\nO2,A,4\nO3,B,1\nO3,A,1\nO3,B,2\n",
        desk: "desk,command,arguments
1,submit,W1,O3,O1,O2
1,release,W1
",
        told: &[
            ((Some(WaveState::Submitted), None, None), &[]),
            (
                (Some(WaveState::Released), None, None),
                &[
                    (0, 0, 1),
                    (0, 1, 2),
                    (0, 2, 1),
                    (1, 0, 1),
                    (1, 2, 3),
                    (2, 0, 1),
                    (2, 4, 3),
                ],
            ),
        ],
    },
    // What is held in place of units that are missing is told by the rows.
    Story {
        stock: "location,article,on_hand\n1-3-L,A,4\n1-2-L,A,1\n1-1-L,A,3\n",
        orders: "order,article,quantity\nO1,A,3\n",
        desk: "desk,command,arguments
1,submit,W1,O1
1,release,W1
1,missing,W1,O1,1-1-L,3
",
        told: &[
            ((Some(WaveState::Submitted), None, None), &[]),
            ((Some(WaveState::Released), None, None), &[(0, 0, 3)]),
            (
                (Some(WaveState::Released), None, None),
                &[(0, 1, 1), (0, 2, 2)],
            ),
        ],
    },
];

/// The orders that a text says, for this stock.
pub fn orders_of(alloc: Global, text: &str, stock: &Stock) -> Result<Orders, Fail>
    ensures { IfOk result (AreReadOrders stock.now.articles) }
{
    Ok(read_orders(alloc, &text.as_bytes().to_vec(alloc)?, stock)?)
}

fn opening_of(alloc: Global, stock: &str, orders: &str) -> Result<Opening, Fail> {
    let stock = stock_of(alloc, stock)?;
    let orders = orders_of(alloc, orders, &stock)?;
    Ok(Opening::of(stock, orders))
}

/// The scripts that a desk file says.
pub fn scripts_of(alloc: Global, desk: &str) -> Result<Scripts, Fail> {
    Ok(read_desks(alloc, &desk.as_bytes().to_vec(alloc)?)?)
}

fn state_of(machine: &Machine<'_>, wave: &str) -> Option<WaveState> {
    match Name::new(wave.as_bytes()) {
        Some(name) => machine.state(&name),
        None => None,
    }
}

fn are_states(machine: &Machine<'_>, states: &States) -> bool {
    state_of(machine, "W1") == states.0
        && state_of(machine, "W2") == states.1
        && state_of(machine, "W3") == states.2
}

/// Whether these are the holds that are told.
fn are_told(outcome: &Outcome, held: &[Held]) -> bool {
    match outcome {
        Outcome::Plain => held.is_empty(),
        Outcome::Released(wave) => are_holds(wave.holds.as_slice(), held),
        Outcome::Refilled(refill) => are_holds(refill.holds.as_slice(), held),
    }
}

/// A machine's answer to a command of desk 1.
pub fn ask(
    rt: &impl Abort,
    alloc: Global,
    machine: &mut Machine<'_>,
    command: &Command,
) -> Result<Answer, Fail>
    requires { IsTrue (is_plain command.now) }
{
    assert!(rt; machine.count() < 1000);
    Ok(machine.ask(alloc, 1, command.copy(alloc)?)?)
}

/// Whether a machine answers a command so, and then stands so.
fn is_answered(
    rt: &impl Abort,
    alloc: Global,
    machine: &mut Machine<'_>,
    command: &Command,
    told: Option<&Told>,
) -> Result<bool, Fail>
    requires { IsTrue (is_plain command.now) }
{
    let answer = ask(rt, alloc, machine, command)?;
    Ok(match told {
        Some((states, held)) => are_states(machine, states) && are_told(&answer.outcome, held),
        None => false,
    })
}

/// The place of the first command of a script after which a new machine tells something else.
fn first_told_otherwise(
    rt: &impl Abort,
    alloc: Global,
    opening: &Opening,
    script: &[Command],
    told: &[Told],
) -> Result<Option<usize>, Fail>
    requires { All (λ command. IsTrue (is_plain command)) script.now }
{
    let mut machine = Machine::open(alloc, opening)?;
    for (at, command) in script.iter().enumerate() {
        if !is_answered(rt, alloc, &mut machine, command, told.get(at))? {
            return Ok(Some(at));
        }
    }
    Ok(None)
}

fn first_otherwise(rt: &impl Abort, alloc: Global, story: &Story) -> Result<Option<usize>, Fail> {
    let opening = opening_of(alloc, story.stock, story.orders)?;
    let scripts = scripts_of(alloc, story.desk)?;
    let script = scripts.script(1);
    assert!(rt; script.len() == story.told.len());
    first_told_otherwise(rt, alloc, &opening, script, story.told)
}

#[test]
fn states_of_waves_and_holds_are_told(rt: HostRuntime) -> Result<(), Fail> {
    for story in &STORIES {
        assert_eq!(rt; first_otherwise(&rt, rt.alloc(), story)?, None);
    }
    Ok(())
}

/// What two desks ask for in turns, desk 2 first.
fn askings_of(alloc: Global, script: &[Command]) -> Result<Vec<Asking>, Fail>
    requires { All (λ command. IsTrue (is_plain command)) script.now }
    ensures { IfOk result (λ askings. All (λ asking. IsTrue (is_plain asking.command))
        askings.items) }
{
    let mut askings = Vec::new(alloc);
    for command in script {
        let desk = if askings.len() % 2 == 0 { 2 } else { 1 };
        let command = command.copy(alloc)?;
        askings.push(Asking { desk, command })?;
    }
    Ok(askings)
}

/// The lines of entries, one after the other.
pub fn text_of(alloc: Global, entries: &[Entry]) -> Result<String, Fail> {
    let mut text = String::new(alloc);
    for entry in entries {
        writeln!(text, "{entry}")?;
    }
    Ok(text)
}

/// The entries of what two desks ask for in turns.
fn answered(
    rt: &impl Abort,
    alloc: Global,
    opening: &Opening,
    script: &[Command],
) -> Result<String, Fail>
    requires { All (λ command. IsTrue (is_plain command)) script.now }
{
    let askings = askings_of(alloc, script)?;
    assert!(rt; askings.len() <= 100);
    let entries = answer_all(alloc, opening, askings.as_slice())?;
    text_of(alloc, entries.as_slice())
}

fn answered_desks(rt: &impl Abort, alloc: Global, desk: &str) -> Result<String, Fail> {
    let opening = opening_of(
        alloc,
        "location,article,on_hand\n1-1-L,A,5\n",
        "order,article,quantity\nO1,A,4\nO2,A,4\n",
    )?;
    let scripts = scripts_of(alloc, desk)?;
    answered(rt, alloc, &opening, scripts.script(1))
}

const IN_TURNS: &str = "desk,command,arguments
1,submit,W1,O1
1,submit,W2,O2
1,release,W2
1,release,W1
";

#[test]
fn entries_have_the_desks_that_asked(rt: HostRuntime) -> Result<(), Fail> {
    assert_eq!(rt;
        answered_desks(&rt, rt.alloc(), IN_TURNS)?.as_str(),
        "0 2 submit W1 O1 -> submitted
1 1 submit W2 O2 -> submitted
2 2 release W2 -> released
3 1 release W1 -> refused short A 4 1
"
    );
    Ok(())
}
