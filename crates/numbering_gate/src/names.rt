// Giving names: what happens at one gate, outside the recursion.
ghost use Rattle.std.specs.Prelude.{◌≡◌};
ghost use Rattle.numbering_gate.specs.State.{state_of, SameTables};
ghost use Rattle.numbering_gate.specs.Names.{one_name, three_names};
ghost use Rattle.circuit.specs.File.{field};
ghost use Rattle.numbering_gate.specs.Kinds.{Room, CanFinish, finish};

use crate::{Act, Naming};
use circuit_records::field_at;
use units::{Gate, Qubit};

impl Naming<'_> {
    // One name, for the gate's result or value.
    #[tactic(auto, unfolding(crate::specs::Names::one_name))]
    pub fn one_name(&mut self, g: Gate)
        requires { Room (state_of self.old) g.0 1 }
        ensures tables { state_of self.new ≡ one_name g.0 (state_of self.old) }
        ensures same { SameTables self.old self.new }
    {
        let name = self.next.0 as usize;
        let after = self.next.0 + 1;
        self.origins[name] = g.0;
        self.roles[name] = 1;
        self.qubits[g.0 as usize] = after;
        self.next = Qubit(after);
    }

    // Three names: aux, carry and result, in that order.
    #[tactic(auto, unfolding(crate::specs::Names::three_names))]
    pub fn three_names(&mut self, g: Gate)
        requires { Room (state_of self.old) g.0 3 }
        ensures tables { state_of self.new ≡ three_names g.0 (state_of self.old) }
        ensures same { SameTables self.old self.new }
    {
        let aux = self.next.0 as usize;
        let carry = aux + 1;
        let result = carry + 1;
        let after = self.next.0 + 3;
        self.origins[aux] = g.0;
        self.roles[aux] = 3;
        self.origins[carry] = g.0;
        self.roles[carry] = 2;
        self.origins[result] = g.0;
        self.roles[result] = 1;
        self.qubits[g.0 as usize] = after;
        self.next = Qubit(after);
    }

    // What a gate does with names once its operands have their qubits.
    #[tactic(auto, unfolding(crate::specs::Kinds::finish))]
    pub fn finish_gate(&mut self, act: Act, circuit: &[u8], g: Gate)
        requires { CanFinish act circuit.now g.0 (state_of self.old) }
        ensures tables { state_of self.new ≡ finish act (field circuit.now g.0 0) g.0 (state_of self.old) }
        ensures same { SameTables self.old self.new }
    {
        let at = g.0 as usize;
        match act {
            Act::Low => self.qubits[at] = 1,
            Act::High => self.qubits[at] = 2,
            Act::One => self.one_name(g),
            Act::Three => self.three_names(g),
            Act::Share => {
                let adder = field_at(circuit, at, 0) as usize;
                self.qubits[at] = self.qubits[adder] - 1;
            }
            Act::Done => {}
        }
    }
}
