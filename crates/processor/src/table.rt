ghost use Rattle.std.specs.Prelude.{◌≡◌, ◌≤◌, [], IfOk, vec_len, vec_capacity};
ghost use Rattle.processor.specs.Kept.{ModesDiffer, SwitchesDiffer, Between, FramesDiffer, FramesFit};
ghost use Rattle.processor.specs.Limits.{last_mode, most_switches, most_frames};

use crate::mode::{LAST_MODE, MOST_FRAMES, Mode, Switch};
use std::alloc::{AllocError, Global};

// Room for the switches between all modes.
const MOST_SWITCHES: usize = 256;

// The processor table: its modes, the switches between them, and the frames that a pair may have. The memory for all
// that it may list is there from the start.
#[derive(Drop)]
pub struct Processor {
    pub(crate) modes: Vec<Mode>,
    pub(crate) switches: Vec<Switch>,
    pub(crate) frames: Vec<u32>,
    ghost modes_room: { last_mode ≤ vec_capacity modes },
    ghost modes_apart: { ModesDiffer modes.items },
    ghost switches_room: { most_switches ≤ vec_capacity switches },
    ghost switches_apart: { SwitchesDiffer switches.items },
    ghost switches_between: { Between modes.items switches.items },
    ghost frames_room: { most_frames ≤ vec_capacity frames },
    ghost frames_few: { vec_len frames ≤ most_frames },
    ghost frames_apart: { FramesDiffer frames.items },
    ghost frames_fit: { FramesFit frames.items },
}

impl Processor {
    // An empty table.
    pub fn new(heap: Global) -> Result<Processor, AllocError>
        ensures modes { IfOk result (λ t. t.modes.items ≡ []) }
        ensures switches { IfOk result (λ t. t.switches.items ≡ []) }
        ensures frames { IfOk result (λ t. t.frames.items ≡ []) }
    {
        let modes = Vec::with_capacity(heap, LAST_MODE as usize)?;
        let switches = Vec::with_capacity(heap, MOST_SWITCHES)?;
        let frames = Vec::with_capacity(heap, MOST_FRAMES)?;
        Ok(Processor {
            modes,
            switches,
            frames,
        })
    }
}
