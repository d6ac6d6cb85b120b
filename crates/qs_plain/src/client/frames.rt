//! What is left of a block on its way, and a client's quiet moves.

ghost use Rattle.std.specs.Prelude.{◌≡◌, ◌<◌, ◌≤◌, ℕ, ◌+◌, [], ◌∷◌, ◌++◌, length, List, IfNone, IfSome, OnOk, MatchOption, vec_capacity};
ghost use Rattle.qs_program.specs.Views.{single, statements_of};
ghost use Rattle.qs_plain.specs.client.Frames.{rest as the_rest, above, ahead_of, next_of, places_of, work, load_left};
ghost use Rattle.qs_plain.specs.client.Growing.{Grows};
ghost use Rattle.qs_plain.specs.client.Opening.{Assigns, IsAside, Opens};
ghost use Rattle.qs_plain.specs.client.Asking.{Asks, Moves, asked_by, asked_of, AreSound, IsSoundAsk, IsSoundMove};
ghost use Rattle.qs_program.specs.declared.program.Declared.{Declared};

use qs_program::{Body, Call, Locals, Stmt, set_variable};
use std::alloc::AllocError;
use std::marker::Model;

/// What is left of a list of statements, or the turns that are left of a repeat.
#[derive(Clone, Copy)]
pub enum Frame<'p> {
    Rest(&'p [Stmt]),
    Turning(u64, &'p Body),
}

/// What a client asks next.
#[derive(Clone, Copy)]
pub enum Ask<'p> {
    Command(&'p Call),
    Query(u8, &'p Call),
    End,
}

/// The frames of a block on its way, the innermost last; they take memory in `new` and `grow` alone.
pub struct Frames<'p> {
    frames: Vec<Frame<'p>>,
    room: usize,
}

impl Drop for Frames<'_> {
    fn drop(self) {
        let Frames { frames: _, room: _ } = self;
    }
}

impl<'p> Model for Frames<'p> {
    ghost use Rattle.std.specs.Prelude.{◌≤◌, map, vec_capacity};
    ghost use Rattle.qs_plain.specs.client.FrameViews.{Stack, stack, stack_code};

    ghost Value = { Stack };

    ghost coded = { stack_code };

    ghost use Rattle.qs_plain.specs.client.FrameViews.{frame_of, IsRoomy};

    ghost view = { λ f. stack (map frame_of f.frames.items) f.room };

    ghost invariant = { λ f. (f.room ≤ vec_capacity f.frames) × IsRoomy (map frame_of f.frames.items) f.room };
}

impl<'p> Frames<'p> {
    ghost use Rattle.qs_plain.specs.client.FrameViews.{frame_of, stack};

    /// No frames, over a stack that has grown.
    pub fn over(frames: Vec<Frame<'p>>) -> Frames<'p>
        requires { frames.items ≡ [] }
        ensures empty { result ≡ stack [] (vec_capacity frames.entry) }
    {
        let room = frames.capacity();
        Frames { frames, room }
    }

    fn push(&mut self, frame: Frame<'p>)
        requires { length self.old.frames + places_of (frame_of frame) ≤ self.old.room }
        ensures pushed { self.new ≡ stack (self.old.frames ++ frame_of frame.entry ∷ []) self.old.room }
    {
        self.frames.push_reserved(frame);
    }

    fn pop(&mut self) -> Option<Frame<'p>>
        ensures cases { MatchOption result ((self.old.frames ≡ []) × (self.new ≡ self.old))
            (λ frame. (self.old.frames ≡ self.new.frames ++ frame_of frame ∷ []) × (self.new.room ≡ self.old.room)
            × (length self.new.frames + places_of (frame_of frame) ≤ self.old.room)) }
    {
        self.frames.pop()
    }

    /// Leaves the innermost repeat.
    #[tactic(auto, using(crate::proofs::client::FrameMoves::pushed))]
    fn leave(&mut self)
        ensures leaves { next_of self.new.frames ≡ (ahead_of self.old.frames).leaves }
        ensures room { self.new.room ≡ self.old.room }
        ensures work { work self.new.frames ≤ work self.old.frames }
        ensures load { (h : ℕ) → load_left self.new.frames h ≤ load_left self.old.frames h }
        ensures sound { (objects : List Declared) (reserved : List ℕ) → AreSound objects reserved self.old.frames → AreSound objects reserved self.new.frames }
    {
        while let Some(frame) = self.pop() {
            if let Frame::Turning(_, _) = frame {
                return;
            }
        }
    }

    /// All quiet moves, and then what is asked. No memory.
    pub fn settle(&mut self, locals: &mut Locals) -> Ask<'p>
        ensures asks { Asks result (next_of self.old.frames locals.old) self.new.frames locals.new }
        ensures room { self.new.room ≡ self.old.room }
        ensures load { (h : ℕ) → asked_of result h + load_left self.new.frames h ≤ load_left self.old.frames h }
        ensures sound { (objects : List Declared) (reserved : List ℕ) → AreSound objects reserved self.old.frames → AreSound objects reserved self.new.frames × IsSoundAsk objects reserved result }
    {
        'moves: loop {
            if let Some(ask) = self.advance(locals) {
                return ask;
            }
        }
    }

    /// Enters a block or a body that is chosen.
    pub fn enter(&mut self, body: &'p Body)
        requires { length self.old.frames + places_of (the_rest body.now) ≤ self.old.room }
        ensures entered { self.new ≡ stack (self.old.frames ++ the_rest body.now ∷ []) self.old.room }
    {
        self.push(Frame::Rest(body.as_slice()));
    }

    #[tactic(auto, using(crate::proofs::client::FrameMoves::pushed))]
    /// One move: None where it is quiet, else what is asked.
    fn advance(&mut self, locals: &mut Locals) -> Option<Ask<'p>>
        ensures moves { Moves result self.old.frames locals.old self.new.frames locals.new }
        ensures room { self.new.room ≡ self.old.room }
        ensures work { IfNone result (work self.new.frames < work self.old.frames) }
        ensures load { (h : ℕ) → asked_by result h + load_left self.new.frames h ≤ load_left self.old.frames h }
        ensures sound { (objects : List Declared) (reserved : List ℕ) → AreSound objects reserved self.old.frames → AreSound objects reserved self.new.frames × IsSoundMove objects reserved result }
    {
        match self.open() {
            None => Some(Ask::End),
            Some(stmts) => match stmts.split_first() {
                None => None,
                Some((stmt, rest)) => self.begin(stmt, rest, locals),
            },
        }
    }

    #[tactic(auto, using(crate::proofs::client::FrameMoves::pushed))]
    /// Takes off the list that goes on: what was left of one, or the body of a repeat for one more turn, and none of it
    /// after the last.
    fn open(&mut self) -> Option<&'p [Stmt]>
        ensures cases { MatchOption result ((self.old.frames ≡ []) × (self.new ≡ self.old)) (λ stmts. Opens self.old.frames self.new.frames (statements_of stmts.now)) }
        ensures room { self.new.room ≡ self.old.room }
        ensures fits { IfSome result (λ stmts. length self.new.frames + places_of (the_rest (statements_of stmts.now)) ≤ self.new.room) }
    {
        match self.pop() {
            None => None,
            Some(Frame::Turning(0, _)) => Some(&[]),
            Some(Frame::Turning(left, body)) => {
                self.push(Frame::Turning(left - 1, body));
                Some(body.as_slice())
            }
            Some(Frame::Rest(stmts)) => Some(stmts),
        }
    }

    /// What is left of a list becomes a frame, unless nothing is left.
    fn set_aside(&mut self, rest: &'p [Stmt])
        requires { length self.old.frames + places_of (the_rest (statements_of rest.now)) ≤ self.old.room }
        ensures aside { IsAside self.old.frames self.new.frames (statements_of rest.now) }
        ensures room { self.new.room ≡ self.old.room }
    {
        if !rest.is_empty() {
            self.push(Frame::Rest(rest));
        }
    }

    #[tactic(auto, using(crate::proofs::client::FrameMoves::pushed))]
    /// The move of a statement, whose list was taken off.
    fn begin(&mut self, stmt: &'p Stmt, rest: &'p [Stmt], locals: &mut Locals) -> Option<Ask<'p>>
        requires { length self.old.frames + places_of (the_rest (statements_of (stmt.now ∷ rest.now))) ≤ self.old.room }
        ensures moves { Moves result (self.old.frames ++ the_rest (statements_of (stmt.now ∷ rest.now)) ∷ []) locals.old self.new.frames locals.new }
        ensures room { self.new.room ≡ self.old.room }
        ensures work { IfNone result (work self.new.frames < work (self.old.frames ++ the_rest (statements_of (stmt.now ∷ rest.now)) ∷ [])) }
        ensures load { (h : ℕ) → asked_by result h + load_left self.new.frames h ≤ load_left (self.old.frames ++ the_rest (statements_of (stmt.now ∷ rest.now)) ∷ []) h }
        ensures sound { (objects : List Declared) (reserved : List ℕ) → AreSound objects reserved (self.old.frames ++ the_rest (statements_of (stmt.now ∷ rest.now)) ∷ [])
            → AreSound objects reserved self.new.frames × IsSoundMove objects reserved result }
    {
        match stmt {
            Stmt::Command(call) => {
                self.set_aside(rest);
                Some(Ask::Command(call))
            }
            Stmt::Query(variable, call) => {
                self.set_aside(rest);
                Some(Ask::Query(*variable, call))
            }
            Stmt::Assign(variable, expr) => {
                let value = expr.value(locals);
                set_variable(locals, *variable, value);
                self.set_aside(assign_all(rest, locals));
                None
            }
            Stmt::If {
                test,
                first,
                other,
                ..
            } => {
                self.set_aside(rest);
                self.enter(if test.is_met(locals) { first } else { other });
                None
            }
            Stmt::Repeat(count, body) => {
                self.set_aside(rest);
                self.push(Frame::Turning(*count, body));
                None
            }
            Stmt::Leave => {
                self.set_aside(rest);
                self.leave();
                None
            }
        }
    }
}

/// Does the assignments at the head of a list, and answers what is left of it.
fn assign_all<'p>(stmts: &'p [Stmt], locals: &mut Locals) -> &'p [Stmt]
    ensures assigned { Assigns (statements_of stmts.now) locals.old (statements_of result.now) locals.new }
{
    let mut rest = stmts;
    'assignments: while let Some((Stmt::Assign(variable, expr), later)) = rest.split_first() {
        let value = expr.value(locals);
        set_variable(locals, *variable, value);
        rest = later;
    }
    rest
}

/// Walks through the statements once with the stack at its tallest, which takes the memory.
#[cycle(grow)]
pub fn grow<'p>(frames: &mut Vec<Frame<'p>>, body: &'p Body) -> Result<(), AllocError>
    ensures ok { OnOk result (Grows frames.old frames.new (places_of (the_rest body.now))) }
{
    frames.push(Frame::Rest(body.as_slice()))?;
    for stmt in body.as_slice() {
        grow_stmt(frames, stmt)?;
    }
    let _top = frames.pop();
    Ok(())
}

#[cycle(grow)]
fn grow_stmt<'p>(frames: &mut Vec<Frame<'p>>, stmt: &'p Stmt) -> Result<(), AllocError>
    ensures ok { OnOk result (Grows frames.old frames.new (above (single stmt.now))) }
{
    match stmt {
        Stmt::If { first, other, .. } => {
            grow(frames, first)?;
            grow(frames, other)
        }
        Stmt::Repeat(_, body) => {
            frames.push(Frame::Turning(0, body))?;
            grow(frames, body)?;
            let _top = frames.pop();
            Ok(())
        }
        _ => Ok(()),
    }
}
