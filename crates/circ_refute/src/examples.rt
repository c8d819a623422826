//! Examples that try the definition: what is found is computed.
ghost use Rattle.std.specs.Prelude.{◌≡◌};
ghost use Rattle.circ_plain_search.specs.Examples.{zero_bit, one_bit};
ghost use Rattle.circ_refute.specs.PlainRefutation.{conclude, Told_apart, Alike, Spent};
ghost use Rattle.circ_refute.specs.Examples.{refuted_in_bits, second_bits, second_bit, equal_zeros};
ghost use Rattle.circ_refute.specs.Examples.{refuted_in_gates, open_gate, shut_gate, first_bit};

/// `zip(zeros, ones)` and `zip(zeros, zeros)` differ in their second bits: two pairs are expanded,
/// with twelve rewrites.
pub fn second_bits_differ()
    ensures { refuted_in_bits 10 1000 second_bits
        ≡ conclude (Told_apart second_bit one_bit zero_bit) 988 8 }
{}

/// With one Derive step no second pair is expanded.
pub fn derive_steps_are_spent()
    ensures { refuted_in_bits 1 1000 second_bits ≡ conclude Spent 992 0 }
{}

/// Equal sides are passed over.
pub fn equal_sides_are_alike()
    ensures { refuted_in_bits 1 1000 equal_zeros ≡ conclude Alike 1000 1 }
{}

/// `gate(1, ones)` and `zeros` differ in their first bits, where the condition of the gate's first
/// equation holds: a try, two rewrites on the left and one on the right.
pub fn an_open_gate_differs()
    ensures { refuted_in_gates 10 1000 open_gate
        ≡ conclude (Told_apart first_bit one_bit zero_bit) 996 9 }
{}

/// `gate(0, ones)` and `zeros` are alike: the condition of the first equation fails, that of the
/// second holds, and each try takes one of the rewrites.
pub fn a_shut_gate_is_alike()
    ensures alike { refuted_in_gates 10 1000 shut_gate ≡ conclude Alike 993 9 }
    ensures tried { refuted_in_gates 10 1 shut_gate ≡ conclude Spent 0 9 }
    ensures replaced { refuted_in_gates 10 2 shut_gate ≡ conclude Spent 0 9 }
{}
