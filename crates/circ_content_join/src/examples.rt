//! Examples that try Join up to content: what is found, and the steps that are left.
ghost use Rattle.std.specs.Prelude.{◌≡◌, [], ◌∷◌, Some, None, true, false};
ghost use Rattle.circ_conditional_norm.specs.Work.{Made, Out};
ghost use Rattle.circ_content_join.specs.Examples.{a1, a2, a3, b1, b2, b3, plus, is_equal};
ghost use Rattle.circ_content_join.specs.Examples.{six, both_places, one_place, join_in};
ghost use Rattle.circ_content_join.specs.Examples.{join_sums, uses, becomes};

/// What both have goes behind, the hypothesis is used on the rests, and no step is taken.
pub fn one_hypothesis_on_the_rests()
    ensures { join_sums (is_equal (plus a1 a2) (plus b1 b2) ∷ [])
        (plus a1 (plus a2 a3)) (plus a3 (plus b1 b2)) 0
        ≡ Made (Some (becomes [] (plus (plus a1 a2) a3) ∷ uses 0 (0 ∷ []) (plus b1 b2)
        ∷ becomes [] (plus a3 (plus b1 b2)) ∷ [])) 0 }
{}

/// Summands that are repeated count as often as they stand there: of three and two a1 two are set
/// aside, and the third is of the rest.
pub fn repeated_summands()
    ensures { join_sums (is_equal (plus a1 a2) b1 ∷ [])
        (plus a1 (plus a1 (plus a1 a2))) (plus a1 (plus a1 b1)) 0
        ≡ Made (Some (becomes [] (plus (plus a1 a2) (plus a1 a1))
        ∷ uses 0 (0 ∷ []) b1 ∷ becomes [] (plus a1 (plus a1 b1)) ∷ [])) 0 }
{}

/// Where both rests have one entry, the arguments are taken from the left, though the hypothesis
/// joins the entries.
pub fn a_rest_of_one_entry_on_both_sides()
    ensures in_place { join_sums (is_equal a2 b1 ∷ []) (plus a1 a2) (plus a1 b1) 0
        ≡ Made (Some (uses 0 (1 ∷ []) b1 ∷ [])) 0 }
    ensures crossed { join_sums (is_equal a1 b1 ∷ []) (plus a1 a2) (plus a2 b1) 0
        ≡ Made None 0 }
{}

/// Where one side leaves nothing, no hypothesis is tried on a rest.
pub fn an_empty_rest()
    ensures entry { join_sums (is_equal (plus a1 a2) a3 ∷ []) (plus a1 (plus a2 a3)) a3 0 ≡ Made None 0 }
    ensures sums { join_sums (is_equal (plus a2 a3) b1 ∷ [])
        (plus a1 (plus a1 (plus a2 a3))) (plus a1 a1) 0 ≡ Made None 0 }
{}

/// Where nothing is set aside, the arguments are taken from the left: each is joined by itself.
pub fn nothing_is_set_aside()
    ensures found { join_sums (is_equal a1 b1 ∷ is_equal (plus a2 a3) (plus b2 b3) ∷ [])
        (plus a1 (plus a2 a3)) (plus b1 (plus b2 b3)) 0
        ≡ Made (Some (uses 0 (0 ∷ []) b1 ∷ uses 1 (1 ∷ []) (plus b2 b3) ∷ [])) 0 }
    ensures whole { join_sums (is_equal (plus a1 a2) (plus b1 b2) ∷ [])
        (plus a1 (plus a2 a3)) (plus b1 (plus b2 b3)) 0 ≡ Made None 0 }
{}

/// Both marks and both places are asked for.
pub fn what_is_asked_for()
    ensures associative { join_in (six false true false) both_places
        (is_equal (plus a1 a2) (plus b1 b2) ∷ [])
        (plus a1 (plus a2 a3)) (plus a3 (plus b1 b2)) 0 ≡ Made None 0 }
    ensures commutative { join_in (six true false false) both_places
        (is_equal (plus a1 a2) (plus b1 b2) ∷ [])
        (plus a1 (plus a2 a3)) (plus a3 (plus b1 b2)) 0 ≡ Made None 0 }
    ensures places { join_in (six true true false) one_place
        (is_equal (plus a1 a2) (plus b1 b2) ∷ [])
        (plus a1 (plus a2 a3)) (plus a3 (plus b1 b2)) 0 ≡ Made None 0 }
{}

/// An idempotent operator has no way of its own.
pub fn idempotent_sums()
    ensures { join_in (six true true true) both_places (is_equal (plus a1 a2) (plus b1 b2) ∷ [])
        (plus a1 (plus a2 a3)) (plus a3 (plus b1 b2)) 0
        ≡ Made (Some (becomes [] (plus (plus a1 a2) a3) ∷ uses 0 (0 ∷ []) (plus b1 b2)
        ∷ becomes [] (plus a3 (plus b1 b2)) ∷ [])) 0 }
{}
