ghost use Rattle.std.specs.Prelude.{◌≡◌, [], ◌∷◌, ◌++◌, OnErr, OnOk};
ghost use Rattle.processor.specs.Tables.{mode_answer, switch_answer, frame_answer, ListsMode, ListsSwitch};

use crate::mode::{
    LAST_MODE, LONGEST_FRAME, LONGEST_SWITCH, MOST_FRAMES, Mode, Switch, TOP_POWER, TOP_SPEED,
};
use crate::refusal::Refusal;
use crate::table::Processor;

// Filling the table.
impl Processor {
    // Lists one mode more.
    pub fn add_mode(&mut self, number: u32, speed: u32, power: u32) -> Result<(), Refusal>
        ensures answer { result ≡ mode_answer self.old.modes.items number speed power }
        ensures listed { OnOk result (ListsMode self.old.modes.items self.new.modes.items number speed power) }
        ensures switches { self.new.switches ≡ self.old.switches }
        ensures frames { self.new.frames ≡ self.old.frames }
        ensures same { OnErr result (self.new ≡ self.old) }
    {
        if number < 1 || number > LAST_MODE {
            return Err(Refusal::ModeNumber);
        }
        if self.mode(number).is_some() {
            return Err(Refusal::ModeRepeated);
        }
        if speed > TOP_SPEED {
            return Err(Refusal::SpeedLimit);
        }
        if power > TOP_POWER {
            return Err(Refusal::PowerLimit);
        }
        self.modes.push_reserved(Mode {
            number,
            speed,
            power,
        });
        Ok(())
    }

    // Lists one switch more, between two modes that are listed.
    pub fn add_switch(&mut self, from: u32, to: u32, time: u32) -> Result<(), Refusal>
        ensures answer { result ≡ switch_answer self.old.modes.items self.old.switches.items from to time }
        ensures listed { OnOk result (ListsSwitch self.old.switches.items self.new.switches.items from to time) }
        ensures modes { self.new.modes ≡ self.old.modes }
        ensures frames { self.new.frames ≡ self.old.frames }
        ensures same { OnErr result (self.new ≡ self.old) }
    {
        if self.mode(from).is_none() {
            return Err(Refusal::FromUnlisted);
        }
        if self.mode(to).is_none() {
            return Err(Refusal::ToUnlisted);
        }
        if from == to {
            return Err(Refusal::SwitchToItself);
        }
        if self.switch_time(from, to).is_some() {
            return Err(Refusal::SwitchRepeated);
        }
        if time > LONGEST_SWITCH {
            return Err(Refusal::SwitchLimit);
        }
        self.switches.push_reserved(Switch { from, to, time });
        Ok(())
    }

    // Lists one frame more.
    pub fn add_frame(&mut self, length: u32) -> Result<(), Refusal>
        ensures answer { result ≡ frame_answer self.old.frames.items length }
        ensures listed { OnOk result (self.new.frames.items ≡ self.old.frames.items ++ length ∷ []) }
        ensures modes { self.new.modes ≡ self.old.modes }
        ensures switches { self.new.switches ≡ self.old.switches }
        ensures same { OnErr result (self.new ≡ self.old) }
    {
        if length < 1 || length > LONGEST_FRAME {
            return Err(Refusal::FrameLimit);
        }
        if self.has_frame(length) {
            return Err(Refusal::FrameRepeated);
        }
        if self.frames.len() >= MOST_FRAMES {
            return Err(Refusal::NinthFrame);
        }
        self.frames.push_reserved(length);
        Ok(())
    }
}
