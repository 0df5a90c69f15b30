//! The calls that wait.

ghost use Rattle.std.specs.Prelude.{◌≡◌, ◌<◌, ◌≤◌, ◌+◌, ◌∷◌, ◌++◌, [], length, MatchOption, IfOk, IsTrue, ◌↔◌, vec_capacity};
ghost use Rattle.aml_slice.specs.Views.{before_last, last_of, WaitsOn};

use crate::frames::Frame;
use aml_resume::Spot;
use aml_tree::{MOST_LEVELS, MOST_NAMES};
use snap_base::Memory;
use std::alloc::Global;

/// A call that waits: the actor on which its method runs, and where the method stands. Its variables and its path lie
/// among those of all calls that wait.
#[derive(Clone, Copy)]
pub(crate) struct SavedFrame {
    pub(crate) actor: u16,
    pub(crate) method: u16,
    /// The statement of the innermost open block that is next.
    pub(crate) next: usize,
    /// How many variables are in view, at most `MOST_NAMES`.
    pub(crate) variables: usize,
    /// How many statements' inner blocks are open, fewer than `MOST_LEVELS`.
    pub(crate) levels: usize,
}

/// The calls that wait, the root first, with room for as many as may still come to wait.
#[derive(Drop)]
pub(crate) struct SavedFrames {
    pub(crate) frames: Vec<SavedFrame>,
    /// The values of the variables of each call, behind those of the one before it.
    pub(crate) variables: Vec<i64>,
    /// The statements whose inner blocks are open, of each call behind those of the one before it, and the outermost of
    /// each call last.
    pub(crate) path: Vec<Spot>,
}

/// Puts all of a row behind what is saved, which has room for it.
fn put_behind<T>(saved: &mut Vec<T>, row: &mut Vec<T>)
    requires room { length saved.old.items + length row.old.items ≤ vec_capacity saved.old }
    ensures saved { saved.new.items ≡ saved.old.items ++ row.old.items }
    ensures row { row.new.items ≡ [] }
    ensures saved_room { vec_capacity saved.old ≤ vec_capacity saved.new }
    ensures row_room { vec_capacity row.new ≡ vec_capacity row.old }
{
    match saved.append(row) {
        Ok(()) => {}
        Err(_error) => unreachable!(),
    }
}

/// Takes the last so many of what is saved into a row that has room for them, in the place of what it had.
fn take_back<T: Copy>(saved: &mut Vec<T>, count: usize, row: &mut Vec<T>)
    requires some { count ≤ length saved.old.items }
    requires room { count ≤ vec_capacity row.old }
    ensures saved { saved.new.items ≡ before_last count saved.old.items }
    ensures row { row.new.items ≡ last_of count saved.old.items }
    ensures saved_room { vec_capacity saved.new ≡ vec_capacity saved.old }
    ensures row_room { vec_capacity row.old ≤ vec_capacity row.new }
{
    let left = saved.len() - count;
    row.clear();
    match row.extend_from_slice(&saved[left..]) {
        Ok(()) => {}
        Err(_error) => unreachable!(),
    }
    saved.truncate(left);
}

/// Whether one of the calls stands on the actor.
fn waits_on(frames: &[SavedFrame], actor: u16) -> bool
    ensures { IsTrue result ↔ WaitsOn frames.now actor }
{
    for frame in frames {
        if frame.actor == actor {
            return true;
        }
    }
    false
}

impl SavedFrames {
    ghost use Rattle.aml_resume.specs.Rooms.{HasRoom};
    ghost use Rattle.aml_slice.specs.Controls.{StandsOn, most_waiting};
    ghost use Rattle.aml_slice.specs.Views.{frame_of, frames_of, AreKept};

    /// Room for so many calls that wait.
    pub(crate) fn with_room(alloc: Global, frames: usize) -> Result<Self, Memory>
        requires { frames ≤ most_waiting }
        ensures none { IfOk result (λ s. s.frames.items ≡ []) }
        ensures kept { IfOk result AreKept }
        ensures room { IfOk result (λ s. vec_capacity s.frames ≡ frames) }
    {
        Ok(SavedFrames {
            frames: Vec::with_capacity(alloc, frames)?,
            variables: Vec::with_capacity(alloc, frames * MOST_NAMES)?,
            path: Vec::with_capacity(alloc, frames * MOST_LEVELS)?,
        })
    }

    /// How many calls wait.
    pub(crate) fn len(&self) -> usize
        ensures meant { result ≡ length (frames_of self.now) }
        ensures here { result ≡ length self.now.frames.items }
    {
        self.frames.len()
    }

    /// Whether a call that waits stands on the actor.
    pub(crate) fn stands_on(&self, actor: u16) -> bool
        ensures { IsTrue result ↔ StandsOn (frames_of self.now) actor }
    {
        waits_on(self.frames.as_slice(), actor)
    }

    /// The frame waits, and keeps no variable and no open block.
    pub(crate) fn save(&mut self, frame: &mut Frame)
        requires kept { AreKept self.old }
        requires few { length self.old.frames.items < vec_capacity self.old.frames }
        requires small { (length frame.old.activation.variables.items ≤ MOST_NAMES) × (length frame.old.activation.path.items ≤ MOST_LEVELS) }
        requires room { HasRoom frame.old.activation }
        ensures saved { frames_of self.new ≡ frame_of frame.old ∷ frames_of self.old }
        ensures one { length self.new.frames.items ≡ length self.old.frames.items + 1 }
        ensures kept { AreKept self.new }
        ensures spare { vec_capacity self.new.frames ≡ vec_capacity self.old.frames }
        ensures empty { (frame.new.activation.variables.items ≡ []) × (frame.new.activation.path.items ≡ []) }
        ensures room { HasRoom frame.new.activation }
    {
        self.frames.push_reserved(SavedFrame {
            actor: frame.actor,
            method: frame.method,
            next: frame.activation.next,
            variables: frame.activation.variables.len(),
            levels: frame.activation.path.len(),
        });
        put_behind(&mut self.variables, &mut frame.activation.variables);
        put_behind(&mut self.path, &mut frame.activation.path);
    }

    /// The innermost frame that waits, in the place of one that has ended. `None` where none waits.
    pub(crate) fn restore(&mut self, frame: &mut Frame) -> Option<()>
        requires kept { AreKept self.old }
        requires room { HasRoom frame.old.activation }
        ensures restored { MatchOption result (frames_of self.old ≡ []) (λ _. frames_of self.old ≡ frame_of frame.new ∷ frames_of self.new) }
        ensures one { MatchOption result (0 ≤ 0) (λ _. length self.old.frames.items ≡ length self.new.frames.items + 1) }
        ensures kept { MatchOption result (0 ≤ 0) (λ _. AreKept self.new) }
        ensures spare { vec_capacity self.new.frames ≡ vec_capacity self.old.frames }
        ensures room { MatchOption result (0 ≤ 0) (λ _. HasRoom frame.new.activation) }
    {
        let saved = self.frames.pop()?;
        frame.actor = saved.actor;
        frame.method = saved.method;
        frame.activation.next = saved.next;
        take_back(
            &mut self.variables,
            saved.variables,
            &mut frame.activation.variables,
        );
        take_back(&mut self.path, saved.levels, &mut frame.activation.path);
        Some(())
    }
}
