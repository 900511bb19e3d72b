//! What the operations on registers and immediates compute, and the tests of branches.
ghost use Rattle.std.specs.Prelude.{◌≡◌, ◌*ℤ◌, pos};
ghost use Rattle.rv_hart.specs.Arithmetic.{computed, signed, upper_word, quotient, quotient_signed, remainder};
ghost use Rattle.rv_hart.specs.Arithmetic.{remainder_signed};
ghost use Rattle.rv_hart.specs.Step.{is_taken};

use rv_table::Op;

#[inline(always)]
fn long_product(a: i32, b: i32) -> i64
    ensures { result ≡ a *ℤ b }
{
    i64::from(a) * i64::from(b)
}

#[inline(always)]
fn mixed_product(a: i32, b: u32) -> i64
    ensures { result ≡ a *ℤ pos b }
{
    i64::from(a) * i64::from(b)
}

#[inline(never)]
fn mulh(a: u32, b: u32) -> u32
    ensures { result ≡ upper_word (signed a *ℤ signed b) }
{
    let product = long_product(a.cast_signed(), b.cast_signed());
    (product.cast_unsigned() >> 32) as u32
}

#[inline(never)]
fn mulhsu(a: u32, b: u32) -> u32
    ensures { result ≡ upper_word (signed a *ℤ pos b) }
{
    let product = mixed_product(a.cast_signed(), b);
    (product.cast_unsigned() >> 32) as u32
}

#[inline(never)]
fn mulhu(a: u32, b: u32) -> u32
    ensures { result ≡ upper_word (pos a *ℤ pos b) }
{
    ((u64::from(a) * u64::from(b)) >> 32) as u32
}

#[inline(always)]
fn div(a: u32, b: u32) -> u32
    ensures { result ≡ quotient_signed a b }
{
    if b == 0 {
        return u32::MAX;
    }
    a.cast_signed()
        .wrapping_div(b.cast_signed())
        .cast_unsigned()
}

#[inline(always)]
fn divu(a: u32, b: u32) -> u32
    ensures { result ≡ quotient a b }
{
    if b == 0 { u32::MAX } else { a / b }
}

#[inline(always)]
fn rem(a: u32, b: u32) -> u32
    ensures { result ≡ remainder_signed a b }
{
    if b == 0 {
        return a;
    }
    a.cast_signed()
        .wrapping_rem(b.cast_signed())
        .cast_unsigned()
}

#[inline(always)]
fn remu(a: u32, b: u32) -> u32
    ensures { result ≡ remainder a b }
{
    if b == 0 { a } else { a % b }
}

/// What the operation computes of its registers `a` and `b` and its immediate; 0 for operations that
/// compute nothing.
#[inline(always)]
pub(crate) fn compute(op: Op, a: u32, b: u32, imm: u32) -> u32
    ensures { result ≡ computed op a b imm }
{
    match op {
        Op::Addi => a.wrapping_add(imm),
        Op::Slti => u32::from(a.cast_signed() < imm.cast_signed()),
        Op::Sltiu => u32::from(a < imm),
        Op::Xori => a ^ imm,
        Op::Ori => a | imm,
        Op::Andi => a & imm,
        Op::Slli => a.wrapping_shl(imm),
        Op::Srli => a.wrapping_shr(imm),
        Op::Srai => a.cast_signed().wrapping_shr(imm).cast_unsigned(),
        Op::Add => a.wrapping_add(b),
        Op::Sub => a.wrapping_sub(b),
        Op::Sll => a.wrapping_shl(b),
        Op::Slt => u32::from(a.cast_signed() < b.cast_signed()),
        Op::Sltu => u32::from(a < b),
        Op::Xor => a ^ b,
        Op::Srl => a.wrapping_shr(b),
        Op::Sra => a.cast_signed().wrapping_shr(b).cast_unsigned(),
        Op::Or => a | b,
        Op::And => a & b,
        Op::Mul => a.wrapping_mul(b),
        Op::Mulh => mulh(a, b),
        Op::Mulhsu => mulhsu(a, b),
        Op::Mulhu => mulhu(a, b),
        Op::Div => div(a, b),
        Op::Divu => divu(a, b),
        Op::Rem => rem(a, b),
        Op::Remu => remu(a, b),
        _ => 0,
    }
}

/// Whether a branch is taken, by what its registers `a` and `b` hold; false for other operations.
#[inline(always)]
pub(crate) fn is_taken(op: Op, a: u32, b: u32) -> bool
    ensures { result ≡ is_taken op a b }
{
    match op {
        Op::Beq => a == b,
        Op::Bne => a != b,
        Op::Blt => a.cast_signed() < b.cast_signed(),
        Op::Bge => a.cast_signed() >= b.cast_signed(),
        Op::Bltu => a < b,
        Op::Bgeu => a >= b,
        _ => false,
    }
}
