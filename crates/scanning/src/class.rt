// The class of each byte.
ghost use Rattle.std.specs.Prelude.{◌≡◌};
ghost use Rattle.notation.specs.Classes.{blank, is};
ghost use Rattle.scanning.specs.ScanAnswers.{Classed};

const OTHER: u8 = 0;

const BLANK: u8 = 1;

pub const DIGIT: u8 = 2;

pub const LETTER: u8 = 3;

const UNDERSCORE: u8 = 4;

pub const MINUS: u8 = 5;

pub const DOT: u8 = 6;

pub const QUOTE: u8 = 7;

pub const APOSTROPHE: u8 = 8;

const SLASH: u8 = 9;

const HASH: u8 = 10;

pub const COMMA: u8 = 11;

pub const COLON: u8 = 12;

pub const OPEN_PAREN: u8 = 13;

pub const CLOSE_PAREN: u8 = 14;

pub const OPEN_BRACKET: u8 = 15;

pub const CLOSE_BRACKET: u8 = 16;

pub const OPEN_BRACE: u8 = 17;

pub const CLOSE_BRACE: u8 = 18;

pub const LESS: u8 = 19;

pub const GREATER: u8 = 20;

// A row of sixteen bytes behind each comment.
const CLASS: [u8; 256] = [
    // 00 to 0f: control bytes; 09, 0a and 0d are blanks
    OTHER,
    OTHER,
    OTHER,
    OTHER,
    OTHER,
    OTHER,
    OTHER,
    OTHER,
    OTHER,
    BLANK,
    BLANK,
    OTHER,
    OTHER,
    BLANK,
    OTHER,
    OTHER,
    // 10 to 1f: control bytes
    OTHER,
    OTHER,
    OTHER,
    OTHER,
    OTHER,
    OTHER,
    OTHER,
    OTHER,
    OTHER,
    OTHER,
    OTHER,
    OTHER,
    OTHER,
    OTHER,
    OTHER,
    OTHER,
    // 20 to 2f: (a blank) ! " # $ % & ' ( ) * + , - . /
    BLANK,
    OTHER,
    QUOTE,
    HASH,
    OTHER,
    OTHER,
    OTHER,
    APOSTROPHE,
    OPEN_PAREN,
    CLOSE_PAREN,
    OTHER,
    OTHER,
    COMMA,
    MINUS,
    DOT,
    SLASH,
    // 30 to 3f: 0 1 2 3 4 5 6 7 8 9 : ; < = > ?
    DIGIT,
    DIGIT,
    DIGIT,
    DIGIT,
    DIGIT,
    DIGIT,
    DIGIT,
    DIGIT,
    DIGIT,
    DIGIT,
    COLON,
    OTHER,
    LESS,
    OTHER,
    GREATER,
    OTHER,
    // 40 to 4f: @ A B C D E F G H I J K L M N O
    OTHER,
    LETTER,
    LETTER,
    LETTER,
    LETTER,
    LETTER,
    LETTER,
    LETTER,
    LETTER,
    LETTER,
    LETTER,
    LETTER,
    LETTER,
    LETTER,
    LETTER,
    LETTER,
    // 50 to 5f: P Q R S T U V W X Y Z [ \ ] ^ _
    LETTER,
    LETTER,
    LETTER,
    LETTER,
    LETTER,
    LETTER,
    LETTER,
    LETTER,
    LETTER,
    LETTER,
    LETTER,
    OPEN_BRACKET,
    OTHER,
    CLOSE_BRACKET,
    OTHER,
    UNDERSCORE,
    // 60 to 6f: ` a b c d e f g h i j k l m n o
    OTHER,
    LETTER,
    LETTER,
    LETTER,
    LETTER,
    LETTER,
    LETTER,
    LETTER,
    LETTER,
    LETTER,
    LETTER,
    LETTER,
    LETTER,
    LETTER,
    LETTER,
    LETTER,
    // 70 to 7f: p q r s t u v w x y z { | } ~ DEL
    LETTER,
    LETTER,
    LETTER,
    LETTER,
    LETTER,
    LETTER,
    LETTER,
    LETTER,
    LETTER,
    LETTER,
    LETTER,
    OPEN_BRACE,
    OTHER,
    CLOSE_BRACE,
    OTHER,
    OTHER,
    // 80 to 8f: no ASCII
    OTHER,
    OTHER,
    OTHER,
    OTHER,
    OTHER,
    OTHER,
    OTHER,
    OTHER,
    OTHER,
    OTHER,
    OTHER,
    OTHER,
    OTHER,
    OTHER,
    OTHER,
    OTHER,
    // 90 to 9f: no ASCII
    OTHER,
    OTHER,
    OTHER,
    OTHER,
    OTHER,
    OTHER,
    OTHER,
    OTHER,
    OTHER,
    OTHER,
    OTHER,
    OTHER,
    OTHER,
    OTHER,
    OTHER,
    OTHER,
    // a0 to af: no ASCII
    OTHER,
    OTHER,
    OTHER,
    OTHER,
    OTHER,
    OTHER,
    OTHER,
    OTHER,
    OTHER,
    OTHER,
    OTHER,
    OTHER,
    OTHER,
    OTHER,
    OTHER,
    OTHER,
    // b0 to bf: no ASCII
    OTHER,
    OTHER,
    OTHER,
    OTHER,
    OTHER,
    OTHER,
    OTHER,
    OTHER,
    OTHER,
    OTHER,
    OTHER,
    OTHER,
    OTHER,
    OTHER,
    OTHER,
    OTHER,
    // c0 to cf: no ASCII
    OTHER,
    OTHER,
    OTHER,
    OTHER,
    OTHER,
    OTHER,
    OTHER,
    OTHER,
    OTHER,
    OTHER,
    OTHER,
    OTHER,
    OTHER,
    OTHER,
    OTHER,
    OTHER,
    // d0 to df: no ASCII
    OTHER,
    OTHER,
    OTHER,
    OTHER,
    OTHER,
    OTHER,
    OTHER,
    OTHER,
    OTHER,
    OTHER,
    OTHER,
    OTHER,
    OTHER,
    OTHER,
    OTHER,
    OTHER,
    // e0 to ef: no ASCII
    OTHER,
    OTHER,
    OTHER,
    OTHER,
    OTHER,
    OTHER,
    OTHER,
    OTHER,
    OTHER,
    OTHER,
    OTHER,
    OTHER,
    OTHER,
    OTHER,
    OTHER,
    OTHER,
    // f0 to ff: no ASCII
    OTHER,
    OTHER,
    OTHER,
    OTHER,
    OTHER,
    OTHER,
    OTHER,
    OTHER,
    OTHER,
    OTHER,
    OTHER,
    OTHER,
    OTHER,
    OTHER,
    OTHER,
    OTHER,
];

pub fn class(b: u8) -> u8
    ensures { Classed b result }
{
    CLASS[b as usize]
}

// Where every byte is asked, not by the table, which the compiler builds anew at each use. Of two arms it makes one test of a bit in a word; neighbours in
// one arm, as 9 and 10, are a range to it, and of ranges it makes a chain of tests.
pub fn is_blank(b: u8) -> bool
    ensures { result ≡ is blank b }
{
    match b {
        0x09 | 0x0d | 0x20 => true,
        0x0a => true,
        _ => false,
    }
}
