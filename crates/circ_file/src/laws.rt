//! What is proved of proofs that are written and read. The functions do nothing: a law is a
//! contract.
ghost use Rattle.std.specs.Prelude.{◌≡◌, ℕ, List, Result, Ok};
ghost use Rattle.circ_theory.specs.Theory.{Theory};
ghost use Rattle.circ_theory.specs.WellFormed.{IsWellFormed};
ghost use Rattle.circ_proof.specs.PlainProof.{plain_proof};
ghost use Rattle.circ_proof.specs.Proof.{Proof, ProofFor};
ghost use Rattle.circ_proof.specs.declared.proof.Proof.{Proof as CodeProof};
ghost use Rattle.circ_proof_text.specs.ProofText.{proof_text};
ghost use Rattle.circ_file.specs.declared.fault.FileFault.{FileFault};
ghost use Rattle.circ_file.specs.Decoding.{Decodes};
ghost use Rattle.circ_file.specs.Encoding.{IsProof, GivesBack};

/// A proof that fits a theory can be written, and its text decodes to it.
pub fn texts_decode()
    ensures written { (th : Theory) (p : Proof) → ProofFor th p → IsProof p }
    ensures back { (th : Theory) (p : Proof) (result : Result CodeProof FileFault) →
        IsWellFormed th → ProofFor th p → Decodes th (proof_text p) result →
        GivesBack p result }
{}

/// Bytes that decode to a proof are its text, and it can be written.
pub fn decoded_bytes_are_the_text()
    ensures written { (th : Theory) (bytes : List ℕ) (p : CodeProof) →
        Decodes th bytes (Ok p) → IsProof (plain_proof p) }
    ensures same { (th : Theory) (bytes : List ℕ) (p : CodeProof) →
        Decodes th bytes (Ok p) → proof_text (plain_proof p) ≡ bytes }
{}
