// One instruction of a run, with its environment call.

ghost use Rattle.std.specs.Prelude.{◌≡◌, ◌≢◌, ℕ, ◌+◌, ◌<◌, ◌≤◌, ◌^◌, List, [], ◌∷◌, Some, drop, IfSome, OnOk, OnErr, MatchResult};
ghost use Rattle.base.specs.Outside.{Rose};
ghost use Rattle.rv_machine.specs.Step.{environment_call, step_of};
ghost use Rattle.rv_machine.specs.Run.{Gave, got, outside};
ghost use Rattle.rv_machine.specs.Turn.{Counts, IsFaultless, StandsBefore, Turned, acted};

use crate::ending::{Ending, StepEnd};
use crate::machine::Machine;
use base::{Failed, Sink, Source};

impl Machine {
    // One instruction, with its environment call: none where the run goes on. After a fault the
    // machine stands before that call.
    pub(crate) fn turn<S: Source, K: Sink>(
        &mut self,
        source: &mut S,
        sink: &mut K,
    ) -> Option<Ending>
        requires { self.old.count + 1 < 2 ^ 64 }
        ensures turned { IsFaultless result → Turned (step_of self.old.state) result self.old self.new
            (outside (S.left source.old) (K.given sink.old) (K.writes sink.old))
            (outside (S.left source.new) (K.given sink.new) (K.writes sink.new))
            (sink.new ≡ sink.old) }
        ensures unread { IsFaultless result → (input : List ℕ) →
            (acted (step_of self.old.state) self.old input).at.gets ≡ 0 → source.new ≡ source.old }
        ensures count { Counts result self.old.count self.new.count }

        ensures read_call { result ≡ Some Ending.ReadFault →
            StandsBefore 2 (step_of self.old.state) self.old self.new }
        ensures read_left { result ≡ Some Ending.ReadFault →
            IfSome (S.left source.old) (λ all. S.left source.new ≡ Some all) }
        ensures read_sink { result ≡ Some Ending.ReadFault → sink.new ≡ sink.old }
        ensures read_rose { result ≡ Some Ending.ReadFault →
            Rose (S.faults source.old) (S.faults source.new) }

        ensures write_call { result ≡ Some Ending.WriteFault →
            StandsBefore 1 (step_of self.old.state) self.old self.new }
        ensures write_given { result ≡ Some Ending.WriteFault → K.given sink.new ≡ K.given sink.old }
        ensures writes { result ≡ Some Ending.WriteFault → K.writes sink.new ≡ K.writes sink.old }
        ensures write_source { result ≡ Some Ending.WriteFault → source.new ≡ source.old }
        ensures write_rose { result ≡ Some Ending.WriteFault →
            Rose (K.faults sink.old) (K.faults sink.new) }

        ensures source_faults { S.faults source.old ≤ S.faults source.new }
        ensures sink_faults { K.faults sink.old ≤ K.faults sink.new }
    {
        match self.step() {
            StepEnd::Went => None,
            StepEnd::Trap(kind, address) => Some(Ending::Trap(kind, address)),
            StepEnd::Call(which) => self.call_outside(which, source, sink),
        }
    }

    // An environment call: none where the run goes on. After a fault the machine stands before that call.
    fn call_outside<S: Source, K: Sink>(
        &mut self,
        which: u32,
        source: &mut S,
        sink: &mut K,
    ) -> Option<Ending>
        requires room { self.old.count + 1 < 2 ^ 64 }
        requires known { which < 5 }
        ensures turned { IsFaultless result → Turned (environment_call which) result self.old self.new
            (outside (S.left source.old) (K.given sink.old) (K.writes sink.old))
            (outside (S.left source.new) (K.given sink.new) (K.writes sink.new))
            (sink.new ≡ sink.old) }
        ensures unread { IsFaultless result → (input : List ℕ) →
            (acted (environment_call which) self.old input).at.gets ≡ 0 → source.new ≡ source.old }
        ensures count { Counts result self.old.count self.new.count }

        ensures read_call { result ≡ Some Ending.ReadFault →
            StandsBefore 2 (environment_call which) self.old self.new }
        ensures read_left { result ≡ Some Ending.ReadFault →
            IfSome (S.left source.old) (λ all. S.left source.new ≡ Some all) }
        ensures read_sink { result ≡ Some Ending.ReadFault → sink.new ≡ sink.old }
        ensures read_rose { result ≡ Some Ending.ReadFault →
            Rose (S.faults source.old) (S.faults source.new) }

        ensures write_call { result ≡ Some Ending.WriteFault →
            StandsBefore 1 (environment_call which) self.old self.new }
        ensures write_given { result ≡ Some Ending.WriteFault → K.given sink.new ≡ K.given sink.old }
        ensures writes { result ≡ Some Ending.WriteFault → K.writes sink.new ≡ K.writes sink.old }
        ensures write_source { result ≡ Some Ending.WriteFault → source.new ≡ source.old }
        ensures write_rose { result ≡ Some Ending.WriteFault →
            Rose (K.faults sink.old) (K.faults sink.new) }

        ensures source_faults { S.faults source.old ≤ S.faults source.new }
        ensures sink_faults { K.faults sink.old ≤ K.faults sink.new }
    {
        match which {
            0 => {
                self.count_one();
                Some(Ending::Halt(self.register(10)))
            }
            1 => {
                let byte = (self.register(10) % 256) as u8;
                let Ok(()) = put_byte(sink, byte) else {
                    return Some(Ending::WriteFault);
                };
                self.go_behind();
                None
            }
            2 => {
                let Ok(word) = get_byte(source) else {
                    return Some(Ending::ReadFault);
                };
                self.put(10, word);
                self.go_behind();
                None
            }
            3 => {
                self.count_one();
                Some(Ending::Unhandled(self.register(10)))
            }
            _ => {
                self.count_one();
                let asked = self.register(10);
                let left = self.register(11);
                Some(Ending::Full { asked, left })
            }
        }
    }
}

// Gives the sink one byte, by one write.
fn put_byte<K: Sink>(sink: &mut K, byte: u8) -> Result<(), Failed>
    ensures put { OnOk result (IfSome (K.given sink.new) (λ after.
        Gave (K.given sink.old) (K.writes sink.old) (byte ∷ []) after (K.writes sink.new))) }
    ensures given { OnErr result (K.given sink.new ≡ K.given sink.old) }
    ensures writes { OnErr result (K.writes sink.new ≡ K.writes sink.old) }
    ensures rose { OnErr result (Rose (K.faults sink.old) (K.faults sink.new)) }
    ensures faults { K.faults sink.old ≤ K.faults sink.new }
{
    sink.write(&[byte])?;
    Ok(())
}

// The next byte of the source, by one read, and all ones at its end.
fn get_byte<S: Source>(source: &mut S) -> Result<u32, Failed>
    ensures told { IfSome (S.left source.old) (λ all. MatchResult result
        (λ word. (word ≡ got all) × (S.left source.new ≡ Some (drop 1 all)))
        (λ _. S.left source.new ≡ Some all)) }
    ensures rose { OnErr result (Rose (S.faults source.old) (S.faults source.new)) }
    ensures faults { S.faults source.old ≤ S.faults source.new }
{
    let mut buffer = [0];
    if source.read(&mut buffer)? == 0 {
        Ok(u32::MAX)
    } else {
        Ok(u32::from(buffer[0]))
    }
}
