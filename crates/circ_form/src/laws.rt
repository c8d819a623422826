//! What is proved of forms.
ghost use Rattle.std.specs.Prelude.{◌≡◌, List, [], ◌∷◌, codes, Some, None};
ghost use Rattle.circ_form.specs.Form.{pieces_of, form_fault};
ghost use Rattle.circ_form.specs.declared.forms.Piece.TheVariants.{Hole, Word};
ghost use Rattle.circ_form.specs.declared.forms.FormFault.TheVariants.{NoWord, BadWord};

/// A form is cut at its holes, and each bracket is a word by itself.
pub fn forms_are_cut()
    ensures plus { pieces_of (codes "_+_") ≡ Hole ∷ Word (codes "+") ∷ Hole ∷ [] }
    ensures brackets { pieces_of (codes "a[_]")
        ≡ Word (codes "a") ∷ Word (codes "[") ∷ Hole ∷ Word (codes "]") ∷ [] }
    ensures no_word { form_fault (codes "__") ≡ Some NoWord }
    ensures bad_word { form_fault (codes "_=_") ≡ Some BadWord }
    ensures good { form_fault (codes "_==_") ≡ None }
{}
