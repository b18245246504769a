//! What is meant by memories that agree in all but a block that was given back.
ghost use Rattle.worked_claims.specs.GivenBack.{ElsewhereSame, ThereOther};

/// Memories that differ in a word of block 1 agree in all but block 1, and not in all but block 0.
pub fn they_agree_elsewhere()
    ensures elsewhere { ElsewhereSame }
    ensures other { ThereOther }
{}
