//! The work of one caller: the calls of its script. Its job has room for what is said of each line from the start, and for the
//! parts of its scans, so no worker takes an allocator.
ghost use Rattle.std.specs.Prelude.{◌≡◌, ◌++◌, ◌∷◌, [], map, IsTrue};
ghost use Rattle.ks_history.specs.Trace.{calls_by};
ghost use Rattle.ks_history.specs.Calls.{numbered};
ghost use Rattle.ks_history.specs.Served.{at_place};
ghost use Rattle.ks_lines.specs.declared.Line.TheVariants.{Call, Scan};
ghost use Rattle.ks_lines.specs.Lines.{IsReplyTo, IsServedLine, MayAnswer, calls_of_line};
ghost use Rattle.ks_lines.specs.Asked.{AreServedLines, IsLine, IsOwnLine};
ghost use Rattle.ks_arena.specs.Sound.{sort_of};
ghost use Rattle.ks_arena.specs.Clauses.{seen_of};
ghost use Rattle.ks_arena.specs.Of.{SameCaller, caller_of};
ghost use Rattle.ks_shape.specs.Answers.{move_number, move_reply};
ghost use Rattle.ks_dictionary.specs.Of.{IsIdlePassOf, site_of};
ghost use Rattle.ks_jobs.specs.About.{AreAbout, site_with};
ghost use Rattle.ks_jobs.specs.Rooms.{HasRoomFor, IsRoomFor, rooms_after};
ghost use Rattle.ks_jobs.specs.Work.{WaitsAs};
ghost use Rattle.ks_serving.specs.Called.{call_at};
ghost use Rattle.ks_tickets.specs.Clauses.{IsBusy, IsFree, IsSameDesk, draws_known};

use crate::reaching::Reaching;
use crate::service::Service;
use ks_aid::{Aid, Serving, found_reply};
use ks_arena::{Arena, Pass};
use ks_gate::Gate;
use ks_history::{Op, Reply};
use ks_jobs::{About, Job, placed};
use ks_lines::{Line, Part, Parts, Said};
use ks_node::Node;
use ks_shape::{MoveLeft, Numbered, Ruled};
use ks_tickets::Desk;
use std::sync::Wait;

/// Returns the number and the reply of a move, by its result.
fn moved_reply(answer: Result<Numbered, MoveLeft>) -> (u64, Reply)
    ensures number { result.0 ≡ move_number answer }
    ensures reply { result.1 ≡ move_reply answer }
{
    match answer {
        Ok(answer) => found_reply(answer),
        Err(MoveLeft::Kept { number }) => (number, Reply::Kept),
        Err(MoveLeft::Full { number }) => (number, Reply::Full),
    }
}

impl<
    N: Node,
    T: Ruled + Serving<N, Arena<N, <T as Ruled>::Rule>>,
    S: Reaching<N, Arena<N, <T as Ruled>::Rule>, T>,
    R: Wait,
    G: Gate,
    W: About,
> Service<'_, N, T, S, R, G, W> {
    /// Makes one call, which may begin where the aid says if it is at one key, and returns its number and its reply.
    fn call<H: Aid>(&self, pass: &mut Pass<N, T::Rule>, aid: &mut H, op: Op) -> (u64, Reply)
        requires pass { IsIdlePassOf self.now.dictionary.now pass.old }
        requires own { IsOwnLine op }
        requires served { IsServedLine S.scans S.moves (Call op) }
        ensures pass { IsIdlePassOf self.now.dictionary.now pass.new }
        ensures caller { SameCaller pass.old pass.new }
        ensures reply { IsReplyTo op result.1 }
        ensures calls { calls_by (caller_of pass.old) (seen_of pass.new)
            ≡ calls_by (caller_of pass.old) (seen_of pass.old)
            ++ numbered result.0 (at_place N.Places.place_of op) result.1 ∷ [] }
    {
        let rt = self.rt;
        let gate = self.gate;
        let arena = self.dictionary.arena();
        match placed::<N::Places>(op) {
            Op::Move(from, to) => {
                moved_reply(self.reach.move_value(rt, arena, pass, gate, from, to))
            }
            op => T::call_aided(rt, arena, pass, gate, aid, op),
        }
    }

    /// Makes the calls of a scan, whose parts go into the room.
    fn scan(
        &self,
        pass: &mut Pass<N, T::Rule>,
        low: u64,
        last: u64,
        most: u32,
        room: Vec<Part>,
    ) -> Said
        requires pass { IsIdlePassOf self.now.dictionary.now pass.old }
        requires scans { IsTrue S.scans }
        requires line { IsLine (Scan low last most) }
        requires room { IsRoomFor most room }
        ensures pass { IsIdlePassOf self.now.dictionary.now pass.new }
        ensures caller { SameCaller pass.old pass.new }
        ensures answer { MayAnswer (Scan low last most) result }
        ensures calls { calls_by (caller_of pass.old) (seen_of pass.new)
            ≡ calls_by (caller_of pass.old) (seen_of pass.old)
            ++ map (call_at N.Places.place_of) (calls_of_line (Scan low last most) result) }
    {
        let mut parts = room;
        let most = most as usize;
        let arena = self.dictionary.arena();
        let stop = self.reach.scan_into(
            self.rt, arena, pass, self.gate, low, last, most, &mut parts,
        );
        Said::Scan(Parts::of(parts), stop)
    }

    /// Makes the calls of one line. The parts of a scan go into the last of the rooms.
    fn answer<H: Aid>(
        &self,
        pass: &mut Pass<N, T::Rule>,
        aid: &mut H,
        line: Line,
        rooms: &mut Vec<Vec<Part>>,
    ) -> Said
        requires pass { IsIdlePassOf self.now.dictionary.now pass.old }
        requires line { IsLine line }
        requires served { IsServedLine S.scans S.moves line }
        requires room { HasRoomFor line rooms.old.items }
        ensures pass { IsIdlePassOf self.now.dictionary.now pass.new }
        ensures caller { SameCaller pass.old pass.new }
        ensures rooms { rooms.new.items ≡ rooms_after line rooms.old.items }
        ensures answer { MayAnswer line result }
        ensures calls { calls_by (caller_of pass.old) (seen_of pass.new)
            ≡ calls_by (caller_of pass.old) (seen_of pass.old)
            ++ map (call_at N.Places.place_of) (calls_of_line line result) }
    {
        match line {
            Line::Call(op) => {
                let (number, reply) = self.call(pass, aid, op);
                Said::Call(number, reply)
            }
            Line::Scan(low, last, most) => {
                let room = rooms.pop().unwrap();
                self.scan(pass, low, last, most, room)
            }
        }
    }

    /// Serves the caller that was drawn at the desk, and puts its job back: makes the calls of its script, line by line, and
    /// writes down what is said of each.
    pub(crate) fn serve_drawn<H: Aid>(
        &self,
        desk: &mut Desk<Job<N, T::Rule, W>>,
        aid: &mut H,
        ticket: u32,
        mut job: Job<N, T::Rule, W>,
    )
        requires about { AreAbout (site_of self.now.dictionary.now) W.table W.callers W.nodes }
        requires served { AreServedLines S.scans S.moves W.scripts }
        requires busy { IsBusy self.now.tickets.now ticket desk.old }
        requires waits { WaitsAs (site_with (sort_of N.layout N.ranged) T.Rule.begins T.Rule.step W.table W.callers W.nodes)
            W.scripts job ticket }
        ensures free { IsFree self.now.tickets.now desk.new }
        ensures same { IsSameDesk desk.old desk.new }
        ensures known { draws_known desk.new ≡ draws_known desk.old }
    {
        for at in 0..job.script.len() {
            let line = job.script.get(at);
            let said = self.answer(&mut job.pass, aid, line, &mut job.rooms);
            job.said.push_reserved(said);
        }
        self.tickets.finish(desk, ticket, job);
    }
}
