// What every verifier answers.
ghost use Rattle.std.specs.Prelude.{◌≡◌, Bool};
ghost use Rattle.verifier.specs.Signed.{Triple, triple};

/// A verifier says whether it passes a signer, a span and a signature. Its meaning is the set of
/// what it passes; asking alters nothing. The three parts go as they stand in a message: a struct
/// of them would be made at each call only to be taken apart again.
pub trait Verifier {
    ghost passing: { Self → Triple → Bool };

    fn passes(&self, signer: &[u8], span: &[u8], signature: &[u8]) -> bool
        ensures { result ≡ passing self.now (triple signer.now span.now signature.now) };
}
