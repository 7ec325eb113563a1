ghost use Rattle.std.specs.Prelude.{◌≡◌, ◌<◌, ◌≤◌, ◌+◌, ◌-◌, [], ◌++◌, length, IfOk, IfErr, IsErr, ◌↔◌, All};
ghost use Rattle.std.specs.Prelude.{vec_capacity};
ghost use Rattle.wp_turn.specs.Promises.{Called, Closed, Ended, Follow, IsOf, given_by, new_pass, new_passes};
ghost use Rattle.wp_turn.specs.Promises.{own_calls, seeing, standing_for_both, callers_of};
ghost use Rattle.wp_turn.specs.Rule.{most_callers, most_calls, most_opened};
ghost use Rattle.wp_turn.specs.Dealt.{Deals};

use crate::not_all::NotAll;
use crate::pass::Pass;
use crate::passes::Passes;
use crate::patience::{LOOKS_AT_PLACE, LOOKS_BEFORE, MOST_LOOKS, sleep_after};
use crate::receipt::Receipt;
use crate::rule::{Both, Come, Commit, DrawNumber, DrawPlace, HandOn, Look, OneHistory, Start};
use crate::turned::Turned;
use crate::view::View;
use atomic_table::{Refused, Seat, Table};
use std::alloc::Global;
use std::marker::Model;
use std::snapshot::Snapshot;
use std::sync::Wait;
use std::thread::yield_now;
use wp_model::Memory;

/// The shared value: one slot, and the words that count its entries, the places and the caller numbers. Contracts see
/// which turn it is, the value at the opening, and the number of passes that were made.
#[derive(Drop)]
pub struct Turn<V: Turned> {
    table: Table<V, View<V, V::Entry>, Start<V>, OneHistory<V>, Global>,
    made: u32,
}

impl<V: Turned> Model for Turn<V> {
    ghost use Rattle.wp_turn.specs.Promises.{Opening};
    ghost use Rattle.wp_turn.specs.Rests.{IsLaid};

    ghost Value = { Opening V };

    ghost view = { λ t. record {
      id = t.table.shared.table_id;
      start = t.table.shared.key.value.value;
      made = t.made;
    } };

    ghost invariant = { λ t. IsLaid t.table.shared.table_id t.table.shared.key.callers t.made };
}

impl<V: Turned> Turn<V> {
    /// A turn over the value, and as many passes, numbered from 1 in the order of the list. Each has seen the entries
    /// that the value has. There are 1 to 64 callers, and fewer than 2,147,483,648 entries. After want of memory the
    /// value is dropped.
    pub fn open(alloc: Global, value: V, callers: u32) -> Result<(Turn<V>, Passes<V>), Memory>
    where
        V: Drop,
        requires callers { (1 ≤ callers) × (callers ≤ most_callers) }
        requires few { length (V.entries value) < most_opened }
        ensures turn { IfOk result (λ r. (r.0.start ≡ value) × (r.0.made ≡ callers)) }
        ensures passes { IfOk result (λ r. r.1.list ≡ new_passes r.0 callers) }
        ensures own { IfOk result (λ r. All (λ pass. IsOf r.0 pass) r.1.list) }
        ensures room { IfOk result (λ r. r.1.room ≡ callers) }
    {
        let room = Vec::with_capacity(alloc, callers as usize)?;
        let opened = value.count();
        let (turn, seat) = Turn::lay(alloc, value, opened, callers)?;
        let list = turn.deal(seat, opened, room);
        Ok((turn, Passes::of(list, callers)))
    }

    // The turn, and the seat that deals its passes.
    fn lay(
        alloc: Global,
        value: V,
        opened: u64,
        callers: u32,
    ) -> Result<(Turn<V>, Seat<V, View<V, V::Entry>>), Memory>
    where
        V: Drop,
        requires callers { (1 ≤ callers) × (callers ≤ most_callers) }
        requires counted { opened ≡ length (V.entries value) }
        requires few { opened < most_opened }
        ensures turn { IfOk result (λ r. (r.0.start ≡ value) × (r.0.made ≡ callers)) }
        ensures seat { IfOk result (λ r. (r.1.table_id ≡ r.0.id) × Deals r.0 callers r.1.me) }
    {
        let start = Start {
            value: Snapshot::of(&value),
            callers,
        };
        let mut slots = Vec::with_capacity(alloc, 1)?;
        slots.push_reserved(value);
        match Table::new(alloc, &[opened, opened, 0], slots, &start) {
            Ok((table, seat)) => Ok((
                Turn {
                    table,
                    made: callers,
                },
                seat,
            )),
            Err(Refused { slots: _ }) => Err(Memory),
        }
    }

    // All passes, from a seat that may draw all caller numbers.
    fn deal(
        &self,
        mut seat: Seat<V, View<V, V::Entry>>,
        opened: u64,
        mut list: Vec<Pass<V>>,
    ) -> Vec<Pass<V>>
        requires own { seat.table_id ≡ self.now.id }
        requires counted { opened ≡ length (V.entries self.now.start) }
        requires deals { Deals self.now self.now.made seat.me }
        requires empty { list.items ≡ [] }
        requires room { self.now.made ≤ vec_capacity list }
        ensures passes { result.items ≡ new_passes self.now self.now.made }
        ensures room { vec_capacity result ≡ vec_capacity list }
    {
        for _ in 0..self.made {
            let (pass, next) = self.number(seat, opened);
            list.push_reserved(pass);
            seat = next;
        }
        list
    }

    // The next pass, and the seat that deals the others.
    fn number(
        &self,
        mut seat: Seat<V, View<V, V::Entry>>,
        opened: u64,
    ) -> (Pass<V>, Seat<V, View<V, V::Entry>>)
        requires own { seat.table_id ≡ self.now.id }
        requires counted { opened ≡ length (V.entries self.now.start) }
        requires pending { (0 < seat.me.0.pending) × (seat.me.0.pending ≤ self.now.made) }
        requires deals { Deals self.now seat.me.0.pending seat.me }
        ensures pass { result.0 ≡ new_pass self.now (self.now.made - seat.me.0.pending + 1) }
        ensures own { result.1.table_id ≡ self.now.id }
        ensures deals { Deals self.now (seat.me.0.pending - 1) result.1.me }
    {
        let shared = &self.table.shared;
        let drawn = shared.fetch_add::<DrawNumber<V>>(&mut seat, 2, 1);
        let next = shared.split_seat::<HandOn>(&mut seat);
        let pass = Pass {
            seat,
            caller: drawn as u32 + 1,
            seen: opened,
            stands: 1,
            made: 0,
        };
        (pass, next)
    }

    /// Waits for the turn, steps the value once, and gives the turn back. The history that the pass has then seen
    /// begins with the one that it had seen, has no other call of its callers, and ends with this call. The Ready fits
    /// the setting, and the caller made fewer than 16,777,216 calls.
    pub fn call<R: Wait>(
        &self,
        rt: &R,
        pass: Pass<V>,
        ready: V::Ready,
    ) -> (Pass<V>, Receipt<V::Out>)
        requires own { IsOf self.now pass }
        requires fits { V.fits (V.setting self.now.start) ready }
        requires few { length (own_calls pass) < most_calls }
        ensures call { Called V.entries V.setting V.entry V.answer self.now.start pass ready
            result.0 result.1.number result.1.out }
        ensures made { length (own_calls result.0) ≡ length (own_calls pass) + 1 }
    {
        let Pass {
            mut seat,
            caller,
            seen: _,
            stands,
            made,
        } = pass;
        let shared = &self.table.shared;
        self.wait_until_free(rt);
        let place = shared.fetch_add::<DrawPlace<V>>(&mut seat, 1, 1);
        let mut looks = 0;
        'turns: for _ in rt.forever() {
            let due = shared.load::<Come<V>>(&mut seat, 0);
            if due == place {
                let value = seat.slot_mut(shared, 0);
                let out = value.step(caller, ready);
                let number = shared.fetch_add::<Commit<V>>(&mut seat, 0, 1);
                let pass = Pass {
                    seat,
                    caller,
                    seen: number + 1,
                    stands,
                    made: made + 1,
                };
                return (pass, Receipt { number, out });
            }
            self.rest(rt, looks, LOOKS_AT_PLACE);
            looks = looks.saturating_add(1);
        }
        unreachable!()
    }

    // Waits until nobody seems to be at a place, as long as its looks last.
    fn wait_until_free<R: Wait>(&self, rt: &R) {
        for looks in 0..MOST_LOOKS {
            if self.is_free() {
                return;
            }
            self.rest(rt, looks, LOOKS_BEFORE);
        }
    }

    // Whether nobody seems to be at a place. Loads without a seat prove nothing, and nothing rests on the answer.
    fn is_free(&self) -> bool {
        let shared = &self.table.shared;
        shared.peek(1) == shared.peek(0)
    }

    // What who waits does between two looks: it yields its processor, and sleeps once it has looked often enough. The
    // word of caller numbers stands still after the opening, so a sleep on it ends with its time.
    fn rest<R: Wait>(&self, rt: &R, looks: u32, awake: u32) {
        match sleep_after(looks, awake) {
            None => yield_now(),
            Some(time) => self.table.shared.park_timeout(rt, 2, self.made, time),
        }
    }

    /// The history that is seen begins with the one that the pass had seen; nothing else of the pass changes.
    pub fn look(&self, pass: Pass<V>) -> Pass<V>
        requires own { IsOf self.now pass }
        ensures same { result ≡ seeing result.calls pass }
        ensures begins { Follow pass result.calls }
        ensures made { own_calls result ≡ own_calls pass }
    {
        let Pass {
            mut seat,
            caller,
            seen: _,
            stands,
            made,
        } = pass;
        let seen = self.table.shared.load::<Look<V>>(&mut seat, 0);
        Pass {
            seat,
            caller,
            seen,
            stands,
            made,
        }
    }

    /// One pass that stands for the callers of both, with the caller number of the first. The history that it has seen
    /// begins with the one of each.
    pub fn meet(&self, a: Pass<V>, b: Pass<V>) -> Pass<V>
        requires first { IsOf self.now a }
        requires second { IsOf self.now b }
        ensures both { result ≡ standing_for_both result.calls a b }
        ensures begins { Follow a result.calls }
        ensures second { Follow b result.calls }
        ensures made { own_calls result ≡ own_calls a }
    {
        let Pass {
            mut seat,
            caller,
            seen: _,
            stands,
            made,
        } = a;
        let Pass {
            seat: other,
            caller: _,
            seen: _,
            stands: others,
            made: _,
        } = b;
        let shared = &self.table.shared;
        shared.join_seat::<Both>(&mut seat, other);
        let seen = shared.load::<Look<V>>(&mut seat, 0);
        Pass {
            seat,
            caller,
            seen,
            stands: stands + others,
            made,
        }
    }

    /// Ends the turn. The value's list has each caller's calls once and in order, and no others after the opening. It
    /// begins with the history that each of the passes has seen, and the setting is that of the opening. `NotAll` comes
    /// exactly where the passes stand for fewer callers than there are.
    pub fn close(self, passes: Passes<V>) -> Result<V, NotAll<V>>
        requires own { All (λ pass. IsOf self pass) passes.list }
        ensures value { IfOk result (λ value. Closed V.entries V.setting self.start passes.list
            value) }
        ensures not_all { IsErr result ↔ (given_by passes.list < self.made) }
        ensures unchanged { IfErr result (λ n. (n.turn ≡ self) × (n.passes ≡ passes)
            × (n.given ≡ given_by passes.list) × (n.made ≡ self.made)) }
    {
        let given = passes.given();
        let made = self.made;
        if given < made {
            return Err(NotAll {
                turn: self,
                passes,
                given,
                made,
            });
        }
        Ok(self.end(passes))
    }

    // The value, where the passes stand for all callers.
    fn end(self, mut passes: Passes<V>) -> V
        requires own { All (λ pass. IsOf self pass) passes.list }
        requires all { (1 ≤ self.made) × (self.made ≤ given_by passes.list) }
        ensures { Closed V.entries V.setting self.start passes.list result }
    {
        let Some(first) = passes.next() else {
            unreachable!()
        };
        let whole = self.meet_all(first, passes);
        self.take_home(whole)
    }

    // The first pass, after it met the others.
    fn meet_all(&self, mut whole: Pass<V>, mut others: Passes<V>) -> Pass<V>
        requires own { IsOf self.now whole }
        requires others { All (λ pass. IsOf self.now pass) others.list }
        ensures own { IsOf self.now result }
        ensures callers { result.callers ≡ whole.callers ++ callers_of others.list }
        ensures begins { Follow whole result.calls }
        ensures others { All (λ pass. Follow pass result.calls) others.list }
    {
        while let Some(pass) = others.next() {
            whole = self.meet(whole, pass);
        }
        whole
    }

    // The value, which is at home once one pass stands for all callers.
    fn take_home(self, whole: Pass<V>) -> V
        requires own { IsOf self whole }
        requires all { self.made ≤ length whole.callers }
        ensures { Ended V.entries V.setting self.start whole result }
    {
        let Turn { table, made: _ } = self;
        let Pass {
            seat,
            caller: _,
            seen: _,
            stands: _,
            made: _,
        } = whole;
        let mut closed = table.close_with(seat);
        let value = closed.take(0);
        closed.free();
        value
    }
}
