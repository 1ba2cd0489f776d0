// A run of the machine: steps, and the environment calls between them.

ghost use Rattle.std.specs.Prelude.{◌≡◌, ◌≢◌, ℕ, ◌+◌, ◌<◌, ◌≤◌, ◌^◌, List, [], Some, IfSome};
ghost use Rattle.base.specs.Outside.{Rose};
ghost use Rattle.rv_machine.specs.Run.{CutOff, Feeds, IsNoFault, StandsAt, first, outside, run_from};

use crate::ending::Ending;
use crate::machine::Machine;
use base::{Sink, Source};

impl Machine {
    /// Executes at most `n` instructions. Of the environment calls, in register 17, 0 halts with
    /// register 10; 1 gives the sink the low byte of register 10, by a write of its own, and 2 reads
    /// one byte of the source into register 10, all ones at its end, and both go on behind the call;
    /// 3 is a condition of class register 10 that no handler took; 4 says that register 10 words were
    /// asked for and register 11 are left. The call that ends a run is one of the `n`. After
    /// `ReadFault`, only at a get-byte where the source's count of faults rose, and `WriteFault`, only
    /// at a put-byte where the sink's rose, the machine stands before that call.
    ///
    /// All is told for each `input` that the source tells, and for each where the run reads nothing.
    pub fn run<S: Source, K: Sink>(&mut self, n: u64, source: &mut S, sink: &mut K) -> Ending
        requires { self.old.count + n < 2 ^ 64 }
        ensures ending { IsNoFault result → (input : List ℕ) →
            Feeds (S.left source.old) input (run_from n (first self.old.state input)) →
            result ≡ (run_from n (first self.old.state input)).ending }
        ensures stands { IsNoFault result → (input : List ℕ) →
            Feeds (S.left source.old) input (run_from n (first self.old.state input)) →
            StandsAt (run_from n (first self.old.state input)).at input self.old self.new
            (outside (S.left source.old) (K.given sink.old) (K.writes sink.old))
            (outside (S.left source.new) (K.given sink.new) (K.writes sink.new)) }
        ensures no_write { IsNoFault result → (input : List ℕ) →
            Feeds (S.left source.old) input (run_from n (first self.old.state input)) →
            (run_from n (first self.old.state input)).at.printed ≡ [] → sink.new ≡ sink.old }
        ensures no_read { IsNoFault result → (input : List ℕ) →
            (run_from n (first self.old.state input)).at.gets ≡ 0 → source.new ≡ source.old }

        ensures read_fault { result ≡ Ending.ReadFault → CutOff 2 n self.old self.new
            (outside (S.left source.old) (K.given sink.old) (K.writes sink.old))
            (outside (S.left source.new) (K.given sink.new) (K.writes sink.new))
            (λ m. m.printed ≡ [] → sink.new ≡ sink.old) }
        ensures source_rose { result ≡ Ending.ReadFault →
            Rose (S.faults source.old) (S.faults source.new) }
        ensures write_fault { result ≡ Ending.WriteFault → CutOff 1 n self.old self.new
            (outside (S.left source.old) (K.given sink.old) (K.writes sink.old))
            (outside (S.left source.new) (K.given sink.new) (K.writes sink.new))
            (λ m. m.gets ≡ 0 → source.new ≡ source.old) }
        ensures sink_rose { result ≡ Ending.WriteFault →
            Rose (K.faults sink.old) (K.faults sink.new) }

        ensures count { (self.old.count ≤ self.new.count) × (self.new.count ≤ self.old.count + n) }
        ensures budget { result ≡ Ending.Budget → self.new.count ≡ self.old.count + n }
        ensures source_faults { S.faults source.old ≤ S.faults source.new }
        ensures sink_faults { K.faults sink.old ≤ K.faults sink.new }
    {
        let mut done = 0;
        while done < n {
            done += self.walk(n - done);
            if done < n {
                match self.turn(source, sink) {
                    None => done += 1,
                    Some(ending) => return ending,
                }
            }
        }
        Ending::Budget
    }
}
