// Short texts, each with a label.

// What a text is called, and its bytes.
pub type Example = (&'static str, &'static [u8]);

pub const GOOD: [Example; 10] = [
    (
        "three gates",
        b"INPUT(a)\nINPUT(b)\nINPUT(c)\nOUTPUT(y)\nOUTPUT(z)\nm = AND(a, b)\ny = OR(m, c)\nz = NOT(m)\n",
    ),
    ("no final line end", b"INPUT(a)\nOUTPUT(y)\ny = NOT(a)"),
    (
        "spaces everywhere",
        b" INPUT ( a ) \n OUTPUT( y)\n  y  =  NAND ( a , a ) ",
    ),
    (
        "comments and empty lines",
        b"# \x00\xff\t\r anything\n\nINPUT(a)\n#\nOUTPUT(y)\ny = NOT(a)\n\n",
    ),
    ("output of an input", b"INPUT(a)\nOUTPUT(a)\ny = NOT(a)\n"),
    (
        "words as names",
        b"INPUT(INPUT)\nINPUT(OUTPUT)\nAND = AND(INPUT, OUTPUT)\nOUTPUT(AND)\n",
    ),
    (
        "names that differ in case",
        b"INPUT(a)\nINPUT(A)\nOUTPUT(y)\ny = XOR(a, A)\n",
    ),
    (
        "sixteen bytes",
        b"INPUT(a234567890123456)\nOUTPUT(y)\ny = NOT(a234567890123456)\n",
    ),
    (
        "eight operands",
        b"INPUT(a)\nOUTPUT(y)\ny = NOR(a, a, a, a, a, a, a, a)\n",
    ),
    (
        "digits and underscores",
        b"INPUT(1)\nINPUT(_)\nOUTPUT(2_)\n2_ = XNOR(1, _)\n",
    ),
];

pub const BAD_BYTES: [Example; 8] = [
    ("byte 0", b"INPUT(a)\n\x00"),
    ("byte 9", b"INPUT(a)\nOUTPUT(\ty)\n"),
    ("byte 13", b"INPUT(a)\r\n"),
    ("byte 127", b"\n\n INPUT(a\x7f)\n"),
    ("byte 255", b"\xffINPUT(a)\n"),
    ("# after a space", b" # remark\n"),
    ("# at the end", b"INPUT(a)\ny = NOT(a)#\n"),
    ("bytes before the form", b"INPUT INPUT -\n"),
];

pub const BAD_FORMS: [Example; 15] = [
    ("only spaces", b"INPUT(a)\n   \n"),
    ("empty brackets", b"INPUT()\n"),
    ("no bracket", b"INPUT a\n"),
    ("not closed", b"INPUT(a\n"),
    ("more behind", b"INPUT(a) b\n"),
    ("two inputs at once", b"INPUT(a, b)\n"),
    ("input in small letters", b"input(a)\n"),
    ("seventeen bytes", b"INPUT(a2345678901234567)\n"),
    ("long operand", b"INPUT(a)\ny = AND(a, a2345678901234567)\n"),
    ("long gate name", b"INPUT(a)\ny2345678901234567 = NOT(a)\n"),
    ("unknown kind", b"INPUT(a)\ny = BUF(a)\n"),
    ("kind in small letters", b"INPUT(a)\ny = not(a)\n"),
    ("comma at the end", b"INPUT(a)\ny = AND(a, a,)\n"),
    ("two signs", b"INPUT(a)\ny == NOT(a)\n"),
    ("no name", b"= NOT(a)\n"),
];

pub const BAD_SIGNALS: [Example; 11] = [
    ("one operand", b"INPUT(a)\ny = AND(a)\n"),
    (
        "nine operands",
        b"INPUT(a)\ny = AND(a, a, a, a, a, a, a, a, a)\n",
    ),
    ("inverter of two", b"INPUT(a)\ny = NOT(a, a)\n"),
    ("parity of three", b"INPUT(a)\ny = XOR(a, a, a)\n"),
    ("count before name", b"INPUT(a)\na = NOT(a, a)\n"),
    ("input twice", b"INPUT(a)\nINPUT(b)\nINPUT(a)\n"),
    ("gate named as an input", b"INPUT(a)\na = NOT(a)\n"),
    ("gate twice", b"INPUT(a)\ny = NOT(a)\ny = NOT(a)\n"),
    ("name before operands", b"INPUT(a)\na = NOT(b)\n"),
    ("gate of itself", b"INPUT(a)\ny = AND(a, y)\n"),
    (
        "operand defined later",
        b"INPUT(a)\ny = NOT(z)\nz = NOT(a)\n",
    ),
];

pub const BAD_WHOLES: [Example; 7] = [
    ("no bytes", b""),
    ("no gate", b"INPUT(a)\nOUTPUT(a)\n"),
    ("no output", b"INPUT(a)\ny = NOT(a)\n"),
    ("unknown output", b"INPUT(a)\nOUTPUT(x)\ny = NOT(a)\n"),
    (
        "output twice",
        b"INPUT(a)\nOUTPUT(y)\nOUTPUT(a)\n# remark\nOUTPUT(y)\ny = NOT(a)\n",
    ),
    (
        "lacking before outputs",
        b"INPUT(a)\nOUTPUT(x)\nOUTPUT(x)\n",
    ),
    ("earlier line first", b"INPUT(a)\nINPUT(a)\n\x00\n"),
];

// One text for each sentence that says what is wrong.
pub const WRONG: [&[u8]; 7] = [
    b"\x00",
    b" ",
    b"a = NOT(a, a)",
    b"INPUT(a)\nINPUT(a)",
    b"a = NOT(a)",
    b"",
    b"INPUT(a)\nOUTPUT(x)\ny = NOT(a)",
];
