// The S-box as a circuit, §5.1.1: 64 bytes go through it at once, one in each lane.
ghost use Rattle.std.specs.Prelude.{◌≡◌};
ghost use Rattle.std.specs.Int.Bits.{bit_xor};
ghost use Rattle.planes.specs.Circuit.{sub_circuit};
ghost use Rattle.planes.specs.Lanes.{planes_of, Lanewise};

use crate::planes::Planes;

// The 115 gates of J. Boyar and R. Peralta ("A new combinational logic minimization technique with applications to cryptology", 2010),
// under their names; u0 and s0 are the highest bits of a byte. Hex 63 is left out, which they add by four negations: the round keys have it.
// The order is not theirs: the results are made one after the other, in the order s4, s5, s1, s6, s7, s2, s3, s0, and each gate stands right
// before the first that needs it. Of 139 orders of this kind it was the one that ran fastest when they were timed, on one machine.
pub fn sub_gates(x: Planes) -> Planes
    ensures { planes_of result ≡ sub_circuit (planes_of x) }
{
    let u0 = x.p7;
    let u1 = x.p6;
    let u2 = x.p5;
    let u3 = x.p4;
    let u4 = x.p3;
    let u5 = x.p2;
    let u6 = x.p1;
    let u7 = x.p0;
    let t0 = u1 ^ u2;
    let y1 = t0 ^ u7;
    let y4 = y1 ^ u3;
    let t5 = y4 & u7;
    let y13 = u0 ^ u6;
    let y14 = u3 ^ u5;
    let y12 = y13 ^ y14;
    let t1 = u4 ^ y12;
    let y15 = t1 ^ u5;
    let t2 = y12 & y15;
    let t6 = t5 ^ t2;
    let y8 = u0 ^ u5;
    let y10 = y15 ^ t0;
    let t15 = y8 & y10;
    let y9 = u0 ^ u3;
    let y20 = t1 ^ u1;
    let y11 = y20 ^ y9;
    let t12 = y9 & y11;
    let t16 = t15 ^ t12;
    let t18 = t6 ^ t16;
    let y19 = y10 ^ y8;
    let t22 = t18 ^ y19;
    let y5 = y1 ^ u6;
    let y3 = y5 ^ y8;
    let y6 = y15 ^ u7;
    let t3 = y3 & y6;
    let t4 = t3 ^ t2;
    let y17 = y10 ^ y11;
    let t13 = y14 & y17;
    let t14 = t13 ^ t12;
    let t17 = t4 ^ t14;
    let t21 = t17 ^ y20;
    let t8 = y5 & y1;
    let y16 = t0 ^ y11;
    let t7 = y13 & y16;
    let t9 = t8 ^ t7;
    let t19 = t9 ^ t14;
    let y21 = y13 ^ y16;
    let t23 = t19 ^ y21;
    let t26 = t21 & t23;
    let t31 = t22 ^ t26;
    let y2 = y1 ^ u0;
    let y7 = u7 ^ y11;
    let t10 = y2 & y7;
    let t11 = t10 ^ t7;
    let t20 = t11 ^ t16;
    let y18 = u0 ^ y16;
    let t24 = t20 ^ y18;
    let t30 = t23 ^ t24;
    let t32 = t31 & t30;
    let t33 = t32 ^ t24;
    let z2 = t33 & u7;
    let t25 = t21 ^ t22;
    let t27 = t24 ^ t26;
    let t28 = t25 & t27;
    let t29 = t28 ^ t22;
    let z5 = t29 & y7;
    let t51 = z2 ^ z5;
    let t35 = t27 ^ t33;
    let t36 = t24 & t35;
    let t34 = t23 ^ t33;
    let t37 = t36 ^ t34;
    let z1 = t37 & y6;
    let t44 = t33 ^ t37;
    let z9 = t44 & y12;
    let z10 = t37 & y3;
    let t49 = z9 ^ z10;
    let t38 = t27 ^ t36;
    let t39 = t29 & t38;
    let t40 = t25 ^ t39;
    let z4 = t40 & y1;
    let t42 = t29 ^ t33;
    let z15 = t42 & y9;
    let t41 = t40 ^ t37;
    let t45 = t42 ^ t41;
    let z16 = t45 & y14;
    let t46 = z15 ^ z16;
    let t58 = z4 ^ t46;
    let t63 = t49 ^ t58;
    let t66 = z1 ^ t63;
    let s4 = t51 ^ t66;
    let z11 = t33 & y4;
    let t47 = z10 ^ z11;
    let z14 = t29 & y2;
    let t43 = t29 ^ t40;
    let z12 = t43 & y13;
    let t50 = z2 ^ z12;
    let z0 = t44 & y15;
    let z3 = t43 & y16;
    let t53 = z0 ^ z3;
    let t57 = t50 ^ t53;
    let t61 = z14 ^ t57;
    let z7 = t45 & y17;
    let z8 = t41 & y10;
    let t52 = z7 ^ z8;
    let t62 = t52 ^ t58;
    let t65 = t61 ^ t62;
    let s5 = t47 ^ t65;
    let z6 = t42 & y11;
    let t54 = z6 ^ z7;
    let t59 = z3 ^ t54;
    let t64 = z4 ^ t59;
    let s3 = t53 ^ t66;
    let s1 = t64 ^ s3;
    let z13 = t40 & y5;
    let t48 = z5 ^ z13;
    let t56 = z12 ^ t48;
    let s6 = t56 ^ t62;
    let t60 = t46 ^ t57;
    let s7 = t48 ^ t60;
    let z17 = t41 & y8;
    let t55 = z16 ^ z17;
    let t67 = t64 ^ t65;
    let s2 = t55 ^ t67;
    let s0 = t59 ^ t63;
    Planes {
        p0: s7,
        p1: s6,
        p2: s5,
        p3: s4,
        p4: s3,
        p5: s2,
        p6: s1,
        p7: s0,
    }
}

// Hex 63 exclusive-ored into every byte, for the round keys: bits 0, 1, 5 and 6 are negated.
pub fn add_63(x: Planes) -> Planes
    ensures { Lanewise (λ b. bit_xor b 0x63) x result }
{
    Planes {
        p0: x.p0 ^ 0xFFFFFFFFFFFFFFFF,
        p1: x.p1 ^ 0xFFFFFFFFFFFFFFFF,
        p2: x.p2,
        p3: x.p3,
        p4: x.p4,
        p5: x.p5 ^ 0xFFFFFFFFFFFFFFFF,
        p6: x.p6 ^ 0xFFFFFFFFFFFFFFFF,
        p7: x.p7,
    }
}
