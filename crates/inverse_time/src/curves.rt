// The two curves, by their tables: how many sets an element takes at a multiple of its pick-up.

ghost use Rattle.std.specs.Prelude.{◌≡◌, ◌≤◌, ◌<◌, length};
ghost use Rattle.inverse_time.specs.Curves.{curve_of, entry as entry_of, EntryLeast, NumberOf, ByStandard};

// The sets that the very inverse curve takes at j = 11 to 200.
const VERY_INVERSE: [u32; 190] = [
    81000, 40500, 27000, 20250, 16200, 13500, 11572, 10125, 9000, 8100, 7364, 6750, 6231, 5786,
    5400, 5063, 4765, 4500, 4264, 4050, 3858, 3682, 3522, 3375, 3240, 3116, 3000, 2893, 2794, 2700,
    2613, 2532, 2455, 2383, 2315, 2250, 2190, 2132, 2077, 2025, 1976, 1929, 1884, 1841, 1800, 1761,
    1724, 1688, 1654, 1620, 1589, 1558, 1529, 1500, 1473, 1447, 1422, 1397, 1373, 1350, 1328, 1307,
    1286, 1266, 1247, 1228, 1209, 1192, 1174, 1158, 1141, 1125, 1110, 1095, 1080, 1066, 1052, 1039,
    1026, 1013, 1000, 988, 976, 965, 953, 942, 932, 921, 911, 900, 891, 881, 871, 862, 853, 844,
    836, 827, 819, 810, 802, 795, 787, 779, 772, 765, 758, 750, 744, 737, 730, 724, 717, 711, 705,
    699, 693, 687, 681, 675, 670, 664, 659, 654, 648, 643, 638, 633, 628, 624, 619, 614, 610, 605,
    600, 596, 592, 587, 583, 579, 575, 571, 567, 563, 559, 555, 552, 548, 544, 540, 537, 533, 530,
    526, 523, 520, 516, 513, 510, 507, 504, 500, 497, 494, 491, 488, 486, 483, 480, 477, 474, 471,
    469, 466, 463, 461, 458, 456, 453, 450, 448, 446, 443, 441, 438, 436, 434, 431, 429, 427,
];

// Those of the extremely inverse one.
const EXTREMELY_INVERSE: [u32; 190] = [
    228572, 109091, 69566, 50000, 38400, 30770, 25397, 21429, 18391, 16000, 14077, 12500, 11189,
    10085, 9143, 8334, 7632, 7018, 6478, 6000, 5575, 5195, 4854, 4546, 4267, 4014, 3783, 3572,
    3378, 3200, 3037, 2885, 2745, 2615, 2494, 2381, 2276, 2178, 2087, 2000, 1920, 1844, 1772, 1705,
    1642, 1582, 1525, 1471, 1420, 1372, 1326, 1283, 1241, 1202, 1164, 1128, 1094, 1062, 1030, 1000,
    972, 945, 918, 893, 869, 846, 824, 803, 782, 762, 743, 725, 708, 691, 674, 658, 643, 628, 614,
    600, 587, 574, 562, 550, 538, 527, 516, 506, 495, 485, 476, 466, 457, 448, 440, 432, 423, 416,
    408, 400, 393, 386, 379, 373, 366, 360, 354, 348, 342, 336, 331, 325, 320, 315, 310, 305, 300,
    295, 291, 286, 282, 278, 273, 269, 265, 261, 258, 254, 250, 247, 243, 240, 236, 233, 230, 227,
    224, 221, 218, 215, 212, 209, 206, 204, 201, 199, 196, 194, 191, 189, 186, 184, 182, 180, 177,
    175, 173, 171, 169, 167, 165, 163, 161, 160, 158, 156, 154, 152, 151, 149, 147, 146, 144, 143,
    141, 140, 138, 137, 135, 134, 132, 131, 130, 128, 127, 126, 125, 123, 122, 121,
];

// Number k of a table, which is lent: a table named where it is read would be laid on the stack.
fn number(table: &[u32], k: usize) -> u32
    requires { k < length table.now }
    ensures { NumberOf table.now k result }
{
    table[k]
}

// The two curves.
#[derive(Clone, Copy)]
pub enum Curve {
    VeryInverse,
    ExtremelyInverse,
}

// By byte 76 of the setting.
impl From<u8> for Curve {
    ghost from_gives = { λ byte curve. curve ≡ curve_of byte };

    fn from(byte: u8) -> Curve {
        match byte {
            1 => Curve::VeryInverse,
            _ => Curve::ExtremelyInverse,
        }
    }
}

impl Curve {
    // The entry of its table for j.
    pub fn entry(self, j: u32) -> u32
        requires { (11 ≤ j) × (j ≤ 200) }
        ensures { result ≡ entry_of self j }
    {
        let k = (j - 11) as usize;
        match self {
            Curve::VeryInverse => number(&VERY_INVERSE, k),
            Curve::ExtremelyInverse => number(&EXTREMELY_INVERSE, k),
        }
    }
}

// The entry of a curve's table for j, the curve by its byte.
pub fn entry(curve: u8, j: u32) -> u32
    requires { (11 ≤ j) × (j ≤ 200) }
    ensures { result ≡ entry_of (curve_of curve) j }
{
    Curve::from(curve).entry(j)
}

// The tables' rule, and that it is the standard's: no code, the statements and their proofs.
pub fn tables()
    ensures { EntryLeast × ByStandard }
{}
