// Squaring an element: its bits are spread, bit i to bit 2 i, and the result is folded by the modulus.
// A table of 256 entries spreads a byte to sixteen bits.
ghost use Rattle.std.specs.Prelude.{◌≡◌, ◌<◌, ◌^◌};
ghost use Rattle.binary_field_theory.specs.Carryless.{spread};
ghost use Rattle.binary_field_theory.specs.Element.{square};
ghost use Rattle.binary_field.specs.Degree.{degree_number};

use crate::carryless;
use crate::carryless::Words;
use crate::degree::Degree;

// Entry w is the byte w with its bit i moved to bit 2 i.
static SPREAD: [u16; 256] = [
    0, 1, 4, 5, 16, 17, 20, 21, 64, 65, 68, 69, 80, 81, 84, 85, 256, 257, 260, 261, 272, 273, 276,
    277, 320, 321, 324, 325, 336, 337, 340, 341, 1024, 1025, 1028, 1029, 1040, 1041, 1044, 1045,
    1088, 1089, 1092, 1093, 1104, 1105, 1108, 1109, 1280, 1281, 1284, 1285, 1296, 1297, 1300, 1301,
    1344, 1345, 1348, 1349, 1360, 1361, 1364, 1365, 4096, 4097, 4100, 4101, 4112, 4113, 4116, 4117,
    4160, 4161, 4164, 4165, 4176, 4177, 4180, 4181, 4352, 4353, 4356, 4357, 4368, 4369, 4372, 4373,
    4416, 4417, 4420, 4421, 4432, 4433, 4436, 4437, 5120, 5121, 5124, 5125, 5136, 5137, 5140, 5141,
    5184, 5185, 5188, 5189, 5200, 5201, 5204, 5205, 5376, 5377, 5380, 5381, 5392, 5393, 5396, 5397,
    5440, 5441, 5444, 5445, 5456, 5457, 5460, 5461, 16384, 16385, 16388, 16389, 16400, 16401,
    16404, 16405, 16448, 16449, 16452, 16453, 16464, 16465, 16468, 16469, 16640, 16641, 16644,
    16645, 16656, 16657, 16660, 16661, 16704, 16705, 16708, 16709, 16720, 16721, 16724, 16725,
    17408, 17409, 17412, 17413, 17424, 17425, 17428, 17429, 17472, 17473, 17476, 17477, 17488,
    17489, 17492, 17493, 17664, 17665, 17668, 17669, 17680, 17681, 17684, 17685, 17728, 17729,
    17732, 17733, 17744, 17745, 17748, 17749, 20480, 20481, 20484, 20485, 20496, 20497, 20500,
    20501, 20544, 20545, 20548, 20549, 20560, 20561, 20564, 20565, 20736, 20737, 20740, 20741,
    20752, 20753, 20756, 20757, 20800, 20801, 20804, 20805, 20816, 20817, 20820, 20821, 21504,
    21505, 21508, 21509, 21520, 21521, 21524, 21525, 21568, 21569, 21572, 21573, 21584, 21585,
    21588, 21589, 21760, 21761, 21764, 21765, 21776, 21777, 21780, 21781, 21824, 21825, 21828,
    21829, 21840, 21841, 21844, 21845,
];

// A byte spread, by its entry of the table.
fn spread_byte(w: u8) -> u64
    ensures { result ≡ spread w }
{
    SPREAD[w as usize] as u64
}

// Thirty-two bits spread, byte by byte.
fn spread_word(w: u32) -> u64
    ensures { result ≡ spread w }
{
    let [b0, b1, b2, b3] = w.to_le_bytes();
    let low = (spread_byte(b1) << 16) ^ spread_byte(b0);
    let high = (spread_byte(b3) << 16) ^ spread_byte(b2);
    (high << 32) ^ low
}

// The square of an element. The low 32 bits of a spread to the bits below 64, the others to those above.
pub(crate) fn square_of(degree: Degree, a: u64) -> u64
    requires { a < 2 ^ degree_number degree }
    ensures { result ≡ square (degree_number degree) a }
{
    match degree {
        Degree::Five => carryless::fold_5(spread_word(a as u32)),
        Degree::SixtyOne => {
            let high = spread_word((a >> 32) as u32);
            let low = spread_word((a & 0xffff_ffff) as u32);
            carryless::fold_61(Words {
                lo: low & 0x1fff_ffff_ffff_ffff,
                hi: (high << 3) ^ (low >> 61),
            })
        }
    }
}
