//! What the decoder reads of words that GNU as made, and of words for instructions that are none here.
use rv32_guest::rv_decode;
use std::test::Fail;

/// A word in each line, and its instruction as it is shown, or `Undefined`.
const WORDS: &str = "011b8eb3 Add { rd: 29, rs1: 23, rs2: 17 }
40058433 Sub { rd: 8, rs1: 11, rs2: 0 }
005e9ab3 Sll { rd: 21, rs1: 29, rs2: 5 }
01812ab3 Slt { rd: 21, rs1: 2, rs2: 24 }
01be3533 Sltu { rd: 10, rs1: 28, rs2: 27 }
00f54533 Xor { rd: 10, rs1: 10, rs2: 15 }
0083d1b3 Srl { rd: 3, rs1: 7, rs2: 8 }
406c5233 Sra { rd: 4, rs1: 24, rs2: 6 }
00e6e933 Or { rd: 18, rs1: 13, rs2: 14 }
0112fd33 And { rd: 26, rs1: 5, rs2: 17 }
000c8693 Addi { rd: 13, rs1: 25, imm: 0 }
00162113 Slti { rd: 2, rs1: 12, imm: 1 }
fffc3193 Sltiu { rd: 3, rs1: 24, imm: -1 }
5977c093 Xori { rd: 1, rs1: 15, imm: 1431 }
7ff06393 Ori { rd: 7, rs1: 0, imm: 2047 }
80067613 Andi { rd: 12, rs1: 12, imm: -2048 }
00041293 Slli { rd: 5, rs1: 8, amount: 0 }
00065f93 Srli { rd: 31, rs1: 12, amount: 0 }
40165c93 Srai { rd: 25, rs1: 12, amount: 1 }
00010583 Lb { rd: 11, rs1: 2, imm: 0 }
80089483 Lh { rd: 9, rs1: 17, imm: -2048 }
7ff7ac83 Lw { rd: 25, rs1: 15, imm: 2047 }
000bc103 Lbu { rd: 2, rs1: 23, imm: 0 }
fffbd383 Lhu { rd: 7, rs1: 23, imm: -1 }
00cc80a3 Sb { rs1: 25, rs2: 12, imm: 1 }
800a9023 Sh { rs1: 21, rs2: 0, imm: -2048 }
00e6a023 Sw { rs1: 13, rs2: 14, imm: 0 }
3a5a0463 Beq { rs1: 20, rs2: 5, imm: 936 }
80691063 Bne { rs1: 18, rs2: 6, imm: -4096 }
ffbc4fe3 Blt { rs1: 24, rs2: 27, imm: -2 }
3247d9e3 Bge { rs1: 15, rs2: 4, imm: 2866 }
806760e3 Bltu { rs1: 14, rs2: 6, imm: -2048 }
8f7bf3e3 Bgeu { rs1: 23, rs2: 23, imm: -1818 }
80050967 Jalr { rd: 18, rs1: 10, imm: -2048 }
fffff1b7 Lui { rd: 3, imm: 4294963200 }
00001517 Auipc { rd: 10, imm: 4096 }
800001ef Jal { rd: 3, imm: -1048576 }
7ffff1ef Jal { rd: 3, imm: 1048574 }
00100e6f Jal { rd: 28, imm: 2048 }
fffff6ef Jal { rd: 13, imm: -2 }
a8e0cc6f Jal { rd: 24, imm: -998770 }
1000292f LrW { rd: 18, rs1: 0 }
1960292f ScW { rd: 18, rs1: 0, rs2: 22 }
1404a92f LrW { rd: 18, rs1: 9 }
1de4a92f ScW { rd: 18, rs1: 9, rs2: 30 }
120428af LrW { rd: 17, rs1: 8 }
1a5428af ScW { rd: 17, rs1: 8, rs2: 5 }
1603a92f LrW { rd: 18, rs1: 7 }
1e43a92f ScW { rd: 18, rs1: 7, rs2: 4 }
009e0d33 Add { rd: 26, rs1: 28, rs2: 9 }
41150c33 Sub { rd: 24, rs1: 10, rs2: 17 }
006b1fb3 Sll { rd: 31, rs1: 22, rs2: 6 }
0088a1b3 Slt { rd: 3, rs1: 17, rs2: 8 }
00a2b5b3 Sltu { rd: 11, rs1: 5, rs2: 10 }
00c04733 Xor { rd: 14, rs1: 0, rs2: 12 }
01df55b3 Srl { rd: 11, rs1: 30, rs2: 29 }
40b2dc33 Sra { rd: 24, rs1: 5, rs2: 11 }
00486f33 Or { rd: 30, rs1: 16, rs2: 4 }
013df0b3 And { rd: 1, rs1: 27, rs2: 19 }
a0e98213 Addi { rd: 4, rs1: 19, imm: -1522 }
80042713 Slti { rd: 14, rs1: 8, imm: -2048 }
001ebf93 Sltiu { rd: 31, rs1: 29, imm: 1 }
fff0c193 Xori { rd: 3, rs1: 1, imm: -1 }
3e176e93 Ori { rd: 29, rs1: 14, imm: 993 }
7ff7ff93 Andi { rd: 31, rs1: 15, imm: 2047 }
01a19293 Slli { rd: 5, rs1: 3, amount: 26 }
0002d213 Srli { rd: 4, rs1: 5, amount: 0 }
4002d593 Srai { rd: 11, rs1: 5, amount: 0 }
800f0b03 Lb { rd: 22, rs1: 30, imm: -2048 }
000a9203 Lh { rd: 4, rs1: 21, imm: 0 }
7ffea003 Lw { rd: 0, rs1: 29, imm: 2047 }
fffc4483 Lbu { rd: 9, rs1: 24, imm: -1 }
001b5303 Lhu { rd: 6, rs1: 22, imm: 1 }
80c40023 Sb { rs1: 8, rs2: 12, imm: -2048 }
80339023 Sh { rs1: 7, rs2: 3, imm: -2048 }
b572a823 Sw { rs1: 5, rs2: 23, imm: -1200 }
ffd08fe3 Beq { rs1: 1, rs2: 29, imm: -2 }
fef29fe3 Bne { rs1: 5, rs2: 15, imm: -2 }
fe064fe3 Blt { rs1: 12, rs2: 0, imm: -2 }
8060d063 Bge { rs1: 1, rs2: 6, imm: -4096 }
81e860e3 Bltu { rs1: 16, rs2: 30, imm: -2048 }
7e377fe3 Bgeu { rs1: 14, rs2: 3, imm: 4094 }
000109e7 Jalr { rd: 19, rs1: 2, imm: 0 }
fffffcb7 Lui { rd: 25, imm: 4294963200 }
fffff317 Auipc { rd: 6, imm: 4294963200 }
800007ef Jal { rd: 15, imm: -1048576 }
7ffffd6f Jal { rd: 26, imm: 1048574 }
00100a6f Jal { rd: 20, imm: 2048 }
ffffffef Jal { rd: 31, imm: -2 }
5d3c1b6f Jal { rd: 22, imm: 794066 }
100dacaf LrW { rd: 25, rs1: 27 }
18ddacaf ScW { rd: 25, rs1: 27, rs2: 13 }
1408a2af LrW { rd: 5, rs1: 17 }
1d38a2af ScW { rd: 5, rs1: 17, rs2: 19 }
120eaeaf LrW { rd: 29, rs1: 29 }
1bdeaeaf ScW { rd: 29, rs1: 29, rs2: 29 }
160c2e2f LrW { rd: 28, rs1: 24 }
1ebc2e2f ScW { rd: 28, rs1: 24, rs2: 11 }
0000100f Undefined
300110f3 Undefined
0021a0af Undefined
0821a0af Undefined
023100b3 Undefined
023140b3 Undefined
00012087 Undefined
003170d3 Undefined
30200073 Undefined
10500073 Undefined
12000073 Undefined
014381b3 Add { rd: 3, rs1: 7, rs2: 20 }
00190433 Add { rd: 8, rs1: 18, rs2: 1 }
00ee86b3 Add { rd: 13, rs1: 29, rs2: 14 }
01b40933 Add { rd: 18, rs1: 8, rs2: 27 }
40898bb3 Sub { rd: 23, rs1: 19, rs2: 8 }
415f0e33 Sub { rd: 28, rs1: 30, rs2: 21 }
402480b3 Sub { rd: 1, rs1: 9, rs2: 2 }
40fa0333 Sub { rd: 6, rs1: 20, rs2: 15 }
01cf95b3 Sll { rd: 11, rs1: 31, rs2: 28 }
00951833 Sll { rd: 16, rs1: 10, rs2: 9 }
016a9ab3 Sll { rd: 21, rs1: 21, rs2: 22 }
00301d33 Sll { rd: 26, rs1: 0, rs2: 3 }
0105afb3 Slt { rd: 31, rs1: 11, rs2: 16 }
01db2233 Slt { rd: 4, rs1: 22, rs2: 29 }
00a0a4b3 Slt { rd: 9, rs1: 1, rs2: 10 }
01762733 Slt { rd: 14, rs1: 12, rs2: 23 }
004bb9b3 Sltu { rd: 19, rs1: 23, rs2: 4 }
01113c33 Sltu { rd: 24, rs1: 2, rs2: 17 }
01e6beb3 Sltu { rd: 29, rs1: 13, rs2: 30 }
00bc3133 Sltu { rd: 2, rs1: 24, rs2: 11 }
0181c3b3 Xor { rd: 7, rs1: 3, rs2: 24 }
00574633 Xor { rd: 12, rs1: 14, rs2: 5 }
012cc8b3 Xor { rd: 17, rs1: 25, rs2: 18 }
01f24b33 Xor { rd: 22, rs1: 4, rs2: 31 }
00c7ddb3 Srl { rd: 27, rs1: 15, rs2: 12 }
019d5033 Srl { rd: 0, rs1: 26, rs2: 25 }
0062d2b3 Srl { rd: 5, rs1: 5, rs2: 6 }
01385533 Srl { rd: 10, rs1: 16, rs2: 19 }
400dd7b3 Sra { rd: 15, rs1: 27, rs2: 0 }
40d35a33 Sra { rd: 20, rs1: 6, rs2: 13 }
41a8dcb3 Sra { rd: 25, rs1: 17, rs2: 26 }
407e5f33 Sra { rd: 30, rs1: 28, rs2: 7 }
0143e1b3 Or { rd: 3, rs1: 7, rs2: 20 }
00196433 Or { rd: 8, rs1: 18, rs2: 1 }
00eee6b3 Or { rd: 13, rs1: 29, rs2: 14 }
01b46933 Or { rd: 18, rs1: 8, rs2: 27 }
0089fbb3 And { rd: 23, rs1: 19, rs2: 8 }
015f7e33 And { rd: 28, rs1: 30, rs2: 21 }
0024f0b3 And { rd: 1, rs1: 9, rs2: 2 }
00fa7333 And { rd: 6, rs1: 20, rs2: 15 }
000f8593 Addi { rd: 11, rs1: 31, imm: 0 }
7ff50813 Addi { rd: 16, rs1: 10, imm: 2047 }
800a8a93 Addi { rd: 21, rs1: 21, imm: -2048 }
00100d13 Addi { rd: 26, rs1: 0, imm: 1 }
00258f93 Addi { rd: 31, rs1: 11, imm: 2 }
004b0213 Addi { rd: 4, rs1: 22, imm: 4 }
00808493 Addi { rd: 9, rs1: 1, imm: 8 }
01060713 Addi { rd: 14, rs1: 12, imm: 16 }
020b8993 Addi { rd: 19, rs1: 23, imm: 32 }
04010c13 Addi { rd: 24, rs1: 2, imm: 64 }
08068e93 Addi { rd: 29, rs1: 13, imm: 128 }
100c0113 Addi { rd: 2, rs1: 24, imm: 256 }
20018393 Addi { rd: 7, rs1: 3, imm: 512 }
40070613 Addi { rd: 12, rs1: 14, imm: 1024 }
000ca893 Slti { rd: 17, rs1: 25, imm: 0 }
7ff22b13 Slti { rd: 22, rs1: 4, imm: 2047 }
8007ad93 Slti { rd: 27, rs1: 15, imm: -2048 }
001d2013 Slti { rd: 0, rs1: 26, imm: 1 }
0022a293 Slti { rd: 5, rs1: 5, imm: 2 }
00482513 Slti { rd: 10, rs1: 16, imm: 4 }
008da793 Slti { rd: 15, rs1: 27, imm: 8 }
01032a13 Slti { rd: 20, rs1: 6, imm: 16 }
0208ac93 Slti { rd: 25, rs1: 17, imm: 32 }
040e2f13 Slti { rd: 30, rs1: 28, imm: 64 }
0803a193 Slti { rd: 3, rs1: 7, imm: 128 }
10092413 Slti { rd: 8, rs1: 18, imm: 256 }
200ea693 Slti { rd: 13, rs1: 29, imm: 512 }
40042913 Slti { rd: 18, rs1: 8, imm: 1024 }
0009bb93 Sltiu { rd: 23, rs1: 19, imm: 0 }
7fff3e13 Sltiu { rd: 28, rs1: 30, imm: 2047 }
8004b093 Sltiu { rd: 1, rs1: 9, imm: -2048 }
001a3313 Sltiu { rd: 6, rs1: 20, imm: 1 }
002fb593 Sltiu { rd: 11, rs1: 31, imm: 2 }
00453813 Sltiu { rd: 16, rs1: 10, imm: 4 }
008aba93 Sltiu { rd: 21, rs1: 21, imm: 8 }
01003d13 Sltiu { rd: 26, rs1: 0, imm: 16 }
0205bf93 Sltiu { rd: 31, rs1: 11, imm: 32 }
040b3213 Sltiu { rd: 4, rs1: 22, imm: 64 }
0800b493 Sltiu { rd: 9, rs1: 1, imm: 128 }
10063713 Sltiu { rd: 14, rs1: 12, imm: 256 }
200bb993 Sltiu { rd: 19, rs1: 23, imm: 512 }
40013c13 Sltiu { rd: 24, rs1: 2, imm: 1024 }
0006ce93 Xori { rd: 29, rs1: 13, imm: 0 }
7ffc4113 Xori { rd: 2, rs1: 24, imm: 2047 }
8001c393 Xori { rd: 7, rs1: 3, imm: -2048 }
00174613 Xori { rd: 12, rs1: 14, imm: 1 }
002cc893 Xori { rd: 17, rs1: 25, imm: 2 }
00424b13 Xori { rd: 22, rs1: 4, imm: 4 }
0087cd93 Xori { rd: 27, rs1: 15, imm: 8 }
010d4013 Xori { rd: 0, rs1: 26, imm: 16 }
0202c293 Xori { rd: 5, rs1: 5, imm: 32 }
04084513 Xori { rd: 10, rs1: 16, imm: 64 }
080dc793 Xori { rd: 15, rs1: 27, imm: 128 }
10034a13 Xori { rd: 20, rs1: 6, imm: 256 }
2008cc93 Xori { rd: 25, rs1: 17, imm: 512 }
400e4f13 Xori { rd: 30, rs1: 28, imm: 1024 }
0003e193 Ori { rd: 3, rs1: 7, imm: 0 }
7ff96413 Ori { rd: 8, rs1: 18, imm: 2047 }
800ee693 Ori { rd: 13, rs1: 29, imm: -2048 }
00146913 Ori { rd: 18, rs1: 8, imm: 1 }
0029eb93 Ori { rd: 23, rs1: 19, imm: 2 }
004f6e13 Ori { rd: 28, rs1: 30, imm: 4 }
0084e093 Ori { rd: 1, rs1: 9, imm: 8 }
010a6313 Ori { rd: 6, rs1: 20, imm: 16 }
020fe593 Ori { rd: 11, rs1: 31, imm: 32 }
04056813 Ori { rd: 16, rs1: 10, imm: 64 }
080aea93 Ori { rd: 21, rs1: 21, imm: 128 }
10006d13 Ori { rd: 26, rs1: 0, imm: 256 }
2005ef93 Ori { rd: 31, rs1: 11, imm: 512 }
400b6213 Ori { rd: 4, rs1: 22, imm: 1024 }
0000f493 Andi { rd: 9, rs1: 1, imm: 0 }
7ff67713 Andi { rd: 14, rs1: 12, imm: 2047 }
800bf993 Andi { rd: 19, rs1: 23, imm: -2048 }
00117c13 Andi { rd: 24, rs1: 2, imm: 1 }
0026fe93 Andi { rd: 29, rs1: 13, imm: 2 }
004c7113 Andi { rd: 2, rs1: 24, imm: 4 }
0081f393 Andi { rd: 7, rs1: 3, imm: 8 }
01077613 Andi { rd: 12, rs1: 14, imm: 16 }
020cf893 Andi { rd: 17, rs1: 25, imm: 32 }
04027b13 Andi { rd: 22, rs1: 4, imm: 64 }
0807fd93 Andi { rd: 27, rs1: 15, imm: 128 }
100d7013 Andi { rd: 0, rs1: 26, imm: 256 }
2002f293 Andi { rd: 5, rs1: 5, imm: 512 }
40087513 Andi { rd: 10, rs1: 16, imm: 1024 }
000d9793 Slli { rd: 15, rs1: 27, amount: 0 }
01f31a13 Slli { rd: 20, rs1: 6, amount: 31 }
00189c93 Slli { rd: 25, rs1: 17, amount: 1 }
002e1f13 Slli { rd: 30, rs1: 28, amount: 2 }
00439193 Slli { rd: 3, rs1: 7, amount: 4 }
00891413 Slli { rd: 8, rs1: 18, amount: 8 }
010e9693 Slli { rd: 13, rs1: 29, amount: 16 }
00341913 Slli { rd: 18, rs1: 8, amount: 3 }
00f99b93 Slli { rd: 23, rs1: 19, amount: 15 }
011f1e13 Slli { rd: 28, rs1: 30, amount: 17 }
01e49093 Slli { rd: 1, rs1: 9, amount: 30 }
000a5313 Srli { rd: 6, rs1: 20, amount: 0 }
01ffd593 Srli { rd: 11, rs1: 31, amount: 31 }
00155813 Srli { rd: 16, rs1: 10, amount: 1 }
002ada93 Srli { rd: 21, rs1: 21, amount: 2 }
00405d13 Srli { rd: 26, rs1: 0, amount: 4 }
0085df93 Srli { rd: 31, rs1: 11, amount: 8 }
010b5213 Srli { rd: 4, rs1: 22, amount: 16 }
0030d493 Srli { rd: 9, rs1: 1, amount: 3 }
00f65713 Srli { rd: 14, rs1: 12, amount: 15 }
011bd993 Srli { rd: 19, rs1: 23, amount: 17 }
01e15c13 Srli { rd: 24, rs1: 2, amount: 30 }
4006de93 Srai { rd: 29, rs1: 13, amount: 0 }
41fc5113 Srai { rd: 2, rs1: 24, amount: 31 }
4011d393 Srai { rd: 7, rs1: 3, amount: 1 }
40275613 Srai { rd: 12, rs1: 14, amount: 2 }
404cd893 Srai { rd: 17, rs1: 25, amount: 4 }
40825b13 Srai { rd: 22, rs1: 4, amount: 8 }
4107dd93 Srai { rd: 27, rs1: 15, amount: 16 }
403d5013 Srai { rd: 0, rs1: 26, amount: 3 }
40f2d293 Srai { rd: 5, rs1: 5, amount: 15 }
41185513 Srai { rd: 10, rs1: 16, amount: 17 }
41edd793 Srai { rd: 15, rs1: 27, amount: 30 }
00030a03 Lb { rd: 20, rs1: 6, imm: 0 }
7ff88c83 Lb { rd: 25, rs1: 17, imm: 2047 }
800e0f03 Lb { rd: 30, rs1: 28, imm: -2048 }
00138183 Lb { rd: 3, rs1: 7, imm: 1 }
00290403 Lb { rd: 8, rs1: 18, imm: 2 }
004e8683 Lb { rd: 13, rs1: 29, imm: 4 }
00840903 Lb { rd: 18, rs1: 8, imm: 8 }
01098b83 Lb { rd: 23, rs1: 19, imm: 16 }
020f0e03 Lb { rd: 28, rs1: 30, imm: 32 }
04048083 Lb { rd: 1, rs1: 9, imm: 64 }
080a0303 Lb { rd: 6, rs1: 20, imm: 128 }
100f8583 Lb { rd: 11, rs1: 31, imm: 256 }
20050803 Lb { rd: 16, rs1: 10, imm: 512 }
400a8a83 Lb { rd: 21, rs1: 21, imm: 1024 }
00001d03 Lh { rd: 26, rs1: 0, imm: 0 }
7ff59f83 Lh { rd: 31, rs1: 11, imm: 2047 }
800b1203 Lh { rd: 4, rs1: 22, imm: -2048 }
00109483 Lh { rd: 9, rs1: 1, imm: 1 }
00261703 Lh { rd: 14, rs1: 12, imm: 2 }
004b9983 Lh { rd: 19, rs1: 23, imm: 4 }
00811c03 Lh { rd: 24, rs1: 2, imm: 8 }
01069e83 Lh { rd: 29, rs1: 13, imm: 16 }
020c1103 Lh { rd: 2, rs1: 24, imm: 32 }
04019383 Lh { rd: 7, rs1: 3, imm: 64 }
08071603 Lh { rd: 12, rs1: 14, imm: 128 }
100c9883 Lh { rd: 17, rs1: 25, imm: 256 }
20021b03 Lh { rd: 22, rs1: 4, imm: 512 }
40079d83 Lh { rd: 27, rs1: 15, imm: 1024 }
000d2003 Lw { rd: 0, rs1: 26, imm: 0 }
7ff2a283 Lw { rd: 5, rs1: 5, imm: 2047 }
80082503 Lw { rd: 10, rs1: 16, imm: -2048 }
001da783 Lw { rd: 15, rs1: 27, imm: 1 }
00232a03 Lw { rd: 20, rs1: 6, imm: 2 }
0048ac83 Lw { rd: 25, rs1: 17, imm: 4 }
008e2f03 Lw { rd: 30, rs1: 28, imm: 8 }
0103a183 Lw { rd: 3, rs1: 7, imm: 16 }
02092403 Lw { rd: 8, rs1: 18, imm: 32 }
040ea683 Lw { rd: 13, rs1: 29, imm: 64 }
08042903 Lw { rd: 18, rs1: 8, imm: 128 }
1009ab83 Lw { rd: 23, rs1: 19, imm: 256 }
200f2e03 Lw { rd: 28, rs1: 30, imm: 512 }
4004a083 Lw { rd: 1, rs1: 9, imm: 1024 }
000a4303 Lbu { rd: 6, rs1: 20, imm: 0 }
7fffc583 Lbu { rd: 11, rs1: 31, imm: 2047 }
80054803 Lbu { rd: 16, rs1: 10, imm: -2048 }
001aca83 Lbu { rd: 21, rs1: 21, imm: 1 }
00204d03 Lbu { rd: 26, rs1: 0, imm: 2 }
0045cf83 Lbu { rd: 31, rs1: 11, imm: 4 }
008b4203 Lbu { rd: 4, rs1: 22, imm: 8 }
0100c483 Lbu { rd: 9, rs1: 1, imm: 16 }
02064703 Lbu { rd: 14, rs1: 12, imm: 32 }
040bc983 Lbu { rd: 19, rs1: 23, imm: 64 }
08014c03 Lbu { rd: 24, rs1: 2, imm: 128 }
1006ce83 Lbu { rd: 29, rs1: 13, imm: 256 }
200c4103 Lbu { rd: 2, rs1: 24, imm: 512 }
4001c383 Lbu { rd: 7, rs1: 3, imm: 1024 }
00075603 Lhu { rd: 12, rs1: 14, imm: 0 }
7ffcd883 Lhu { rd: 17, rs1: 25, imm: 2047 }
80025b03 Lhu { rd: 22, rs1: 4, imm: -2048 }
0017dd83 Lhu { rd: 27, rs1: 15, imm: 1 }
002d5003 Lhu { rd: 0, rs1: 26, imm: 2 }
0042d283 Lhu { rd: 5, rs1: 5, imm: 4 }
00885503 Lhu { rd: 10, rs1: 16, imm: 8 }
010dd783 Lhu { rd: 15, rs1: 27, imm: 16 }
02035a03 Lhu { rd: 20, rs1: 6, imm: 32 }
0408dc83 Lhu { rd: 25, rs1: 17, imm: 64 }
080e5f03 Lhu { rd: 30, rs1: 28, imm: 128 }
1003d183 Lhu { rd: 3, rs1: 7, imm: 256 }
20095403 Lhu { rd: 8, rs1: 18, imm: 512 }
400ed683 Lhu { rd: 13, rs1: 29, imm: 1024 }
00040967 Jalr { rd: 18, rs1: 8, imm: 0 }
7ff98be7 Jalr { rd: 23, rs1: 19, imm: 2047 }
800f0e67 Jalr { rd: 28, rs1: 30, imm: -2048 }
001480e7 Jalr { rd: 1, rs1: 9, imm: 1 }
002a0367 Jalr { rd: 6, rs1: 20, imm: 2 }
004f85e7 Jalr { rd: 11, rs1: 31, imm: 4 }
00850867 Jalr { rd: 16, rs1: 10, imm: 8 }
010a8ae7 Jalr { rd: 21, rs1: 21, imm: 16 }
02000d67 Jalr { rd: 26, rs1: 0, imm: 32 }
04058fe7 Jalr { rd: 31, rs1: 11, imm: 64 }
080b0267 Jalr { rd: 4, rs1: 22, imm: 128 }
100084e7 Jalr { rd: 9, rs1: 1, imm: 256 }
20060767 Jalr { rd: 14, rs1: 12, imm: 512 }
400b89e7 Jalr { rd: 19, rs1: 23, imm: 1024 }
01110023 Sb { rs1: 2, rs2: 17, imm: 0 }
7fe68fa3 Sb { rs1: 13, rs2: 30, imm: 2047 }
80bc0023 Sb { rs1: 24, rs2: 11, imm: -2048 }
018180a3 Sb { rs1: 3, rs2: 24, imm: 1 }
00570123 Sb { rs1: 14, rs2: 5, imm: 2 }
012c8223 Sb { rs1: 25, rs2: 18, imm: 4 }
01f20423 Sb { rs1: 4, rs2: 31, imm: 8 }
00c78823 Sb { rs1: 15, rs2: 12, imm: 16 }
039d0023 Sb { rs1: 26, rs2: 25, imm: 32 }
04628023 Sb { rs1: 5, rs2: 6, imm: 64 }
09380023 Sb { rs1: 16, rs2: 19, imm: 128 }
100d8023 Sb { rs1: 27, rs2: 0, imm: 256 }
20d30023 Sb { rs1: 6, rs2: 13, imm: 512 }
41a88023 Sb { rs1: 17, rs2: 26, imm: 1024 }
007e1023 Sh { rs1: 28, rs2: 7, imm: 0 }
7f439fa3 Sh { rs1: 7, rs2: 20, imm: 2047 }
80191023 Sh { rs1: 18, rs2: 1, imm: -2048 }
00ee90a3 Sh { rs1: 29, rs2: 14, imm: 1 }
01b41123 Sh { rs1: 8, rs2: 27, imm: 2 }
00899223 Sh { rs1: 19, rs2: 8, imm: 4 }
015f1423 Sh { rs1: 30, rs2: 21, imm: 8 }
00249823 Sh { rs1: 9, rs2: 2, imm: 16 }
02fa1023 Sh { rs1: 20, rs2: 15, imm: 32 }
05cf9023 Sh { rs1: 31, rs2: 28, imm: 64 }
08951023 Sh { rs1: 10, rs2: 9, imm: 128 }
116a9023 Sh { rs1: 21, rs2: 22, imm: 256 }
20301023 Sh { rs1: 0, rs2: 3, imm: 512 }
41059023 Sh { rs1: 11, rs2: 16, imm: 1024 }
01db2023 Sw { rs1: 22, rs2: 29, imm: 0 }
7ea0afa3 Sw { rs1: 1, rs2: 10, imm: 2047 }
81762023 Sw { rs1: 12, rs2: 23, imm: -2048 }
004ba0a3 Sw { rs1: 23, rs2: 4, imm: 1 }
01112123 Sw { rs1: 2, rs2: 17, imm: 2 }
01e6a223 Sw { rs1: 13, rs2: 30, imm: 4 }
00bc2423 Sw { rs1: 24, rs2: 11, imm: 8 }
0181a823 Sw { rs1: 3, rs2: 24, imm: 16 }
02572023 Sw { rs1: 14, rs2: 5, imm: 32 }
052ca023 Sw { rs1: 25, rs2: 18, imm: 64 }
09f22023 Sw { rs1: 4, rs2: 31, imm: 128 }
10c7a023 Sw { rs1: 15, rs2: 12, imm: 256 }
219d2023 Sw { rs1: 26, rs2: 25, imm: 512 }
4062a023 Sw { rs1: 5, rs2: 6, imm: 1024 }
01380063 Beq { rs1: 16, rs2: 19, imm: 0 }
7e0d8fe3 Beq { rs1: 27, rs2: 0, imm: 4094 }
80d30063 Beq { rs1: 6, rs2: 13, imm: -4096 }
01a88163 Beq { rs1: 17, rs2: 26, imm: 2 }
007e0263 Beq { rs1: 28, rs2: 7, imm: 4 }
01438463 Beq { rs1: 7, rs2: 20, imm: 8 }
00190863 Beq { rs1: 18, rs2: 1, imm: 16 }
02ee8063 Beq { rs1: 29, rs2: 14, imm: 32 }
05b40063 Beq { rs1: 8, rs2: 27, imm: 64 }
08898063 Beq { rs1: 19, rs2: 8, imm: 128 }
115f0063 Beq { rs1: 30, rs2: 21, imm: 256 }
20248063 Beq { rs1: 9, rs2: 2, imm: 512 }
40fa0063 Beq { rs1: 20, rs2: 15, imm: 1024 }
01cf80e3 Beq { rs1: 31, rs2: 28, imm: 2048 }
00951063 Bne { rs1: 10, rs2: 9, imm: 0 }
7f6a9fe3 Bne { rs1: 21, rs2: 22, imm: 4094 }
80301063 Bne { rs1: 0, rs2: 3, imm: -4096 }
01059163 Bne { rs1: 11, rs2: 16, imm: 2 }
01db1263 Bne { rs1: 22, rs2: 29, imm: 4 }
00a09463 Bne { rs1: 1, rs2: 10, imm: 8 }
01761863 Bne { rs1: 12, rs2: 23, imm: 16 }
024b9063 Bne { rs1: 23, rs2: 4, imm: 32 }
05111063 Bne { rs1: 2, rs2: 17, imm: 64 }
09e69063 Bne { rs1: 13, rs2: 30, imm: 128 }
10bc1063 Bne { rs1: 24, rs2: 11, imm: 256 }
21819063 Bne { rs1: 3, rs2: 24, imm: 512 }
40571063 Bne { rs1: 14, rs2: 5, imm: 1024 }
012c90e3 Bne { rs1: 25, rs2: 18, imm: 2048 }
01f24063 Blt { rs1: 4, rs2: 31, imm: 0 }
7ec7cfe3 Blt { rs1: 15, rs2: 12, imm: 4094 }
819d4063 Blt { rs1: 26, rs2: 25, imm: -4096 }
0062c163 Blt { rs1: 5, rs2: 6, imm: 2 }
01384263 Blt { rs1: 16, rs2: 19, imm: 4 }
000dc463 Blt { rs1: 27, rs2: 0, imm: 8 }
00d34863 Blt { rs1: 6, rs2: 13, imm: 16 }
03a8c063 Blt { rs1: 17, rs2: 26, imm: 32 }
047e4063 Blt { rs1: 28, rs2: 7, imm: 64 }
0943c063 Blt { rs1: 7, rs2: 20, imm: 128 }
10194063 Blt { rs1: 18, rs2: 1, imm: 256 }
20eec063 Blt { rs1: 29, rs2: 14, imm: 512 }
41b44063 Blt { rs1: 8, rs2: 27, imm: 1024 }
0089c0e3 Blt { rs1: 19, rs2: 8, imm: 2048 }
015f5063 Bge { rs1: 30, rs2: 21, imm: 0 }
7e24dfe3 Bge { rs1: 9, rs2: 2, imm: 4094 }
80fa5063 Bge { rs1: 20, rs2: 15, imm: -4096 }
01cfd163 Bge { rs1: 31, rs2: 28, imm: 2 }
00955263 Bge { rs1: 10, rs2: 9, imm: 4 }
016ad463 Bge { rs1: 21, rs2: 22, imm: 8 }
00305863 Bge { rs1: 0, rs2: 3, imm: 16 }
0305d063 Bge { rs1: 11, rs2: 16, imm: 32 }
05db5063 Bge { rs1: 22, rs2: 29, imm: 64 }
08a0d063 Bge { rs1: 1, rs2: 10, imm: 128 }
11765063 Bge { rs1: 12, rs2: 23, imm: 256 }
204bd063 Bge { rs1: 23, rs2: 4, imm: 512 }
41115063 Bge { rs1: 2, rs2: 17, imm: 1024 }
01e6d0e3 Bge { rs1: 13, rs2: 30, imm: 2048 }
00bc6063 Bltu { rs1: 24, rs2: 11, imm: 0 }
7f81efe3 Bltu { rs1: 3, rs2: 24, imm: 4094 }
80576063 Bltu { rs1: 14, rs2: 5, imm: -4096 }
012ce163 Bltu { rs1: 25, rs2: 18, imm: 2 }
01f26263 Bltu { rs1: 4, rs2: 31, imm: 4 }
00c7e463 Bltu { rs1: 15, rs2: 12, imm: 8 }
019d6863 Bltu { rs1: 26, rs2: 25, imm: 16 }
0262e063 Bltu { rs1: 5, rs2: 6, imm: 32 }
05386063 Bltu { rs1: 16, rs2: 19, imm: 64 }
080de063 Bltu { rs1: 27, rs2: 0, imm: 128 }
10d36063 Bltu { rs1: 6, rs2: 13, imm: 256 }
21a8e063 Bltu { rs1: 17, rs2: 26, imm: 512 }
407e6063 Bltu { rs1: 28, rs2: 7, imm: 1024 }
0143e0e3 Bltu { rs1: 7, rs2: 20, imm: 2048 }
00197063 Bgeu { rs1: 18, rs2: 1, imm: 0 }
7eeeffe3 Bgeu { rs1: 29, rs2: 14, imm: 4094 }
81b47063 Bgeu { rs1: 8, rs2: 27, imm: -4096 }
0089f163 Bgeu { rs1: 19, rs2: 8, imm: 2 }
015f7263 Bgeu { rs1: 30, rs2: 21, imm: 4 }
0024f463 Bgeu { rs1: 9, rs2: 2, imm: 8 }
00fa7863 Bgeu { rs1: 20, rs2: 15, imm: 16 }
03cff063 Bgeu { rs1: 31, rs2: 28, imm: 32 }
04957063 Bgeu { rs1: 10, rs2: 9, imm: 64 }
096af063 Bgeu { rs1: 21, rs2: 22, imm: 128 }
10307063 Bgeu { rs1: 0, rs2: 3, imm: 256 }
2105f063 Bgeu { rs1: 11, rs2: 16, imm: 512 }
41db7063 Bgeu { rs1: 22, rs2: 29, imm: 1024 }
00a0f0e3 Bgeu { rs1: 1, rs2: 10, imm: 2048 }
00000737 Lui { rd: 14, imm: 0 }
fffff9b7 Lui { rd: 19, imm: 4294963200 }
00001c37 Lui { rd: 24, imm: 4096 }
00002eb7 Lui { rd: 29, imm: 8192 }
00004137 Lui { rd: 2, imm: 16384 }
000083b7 Lui { rd: 7, imm: 32768 }
00010637 Lui { rd: 12, imm: 65536 }
000208b7 Lui { rd: 17, imm: 131072 }
00040b37 Lui { rd: 22, imm: 262144 }
00080db7 Lui { rd: 27, imm: 524288 }
00100037 Lui { rd: 0, imm: 1048576 }
002002b7 Lui { rd: 5, imm: 2097152 }
00400537 Lui { rd: 10, imm: 4194304 }
008007b7 Lui { rd: 15, imm: 8388608 }
01000a37 Lui { rd: 20, imm: 16777216 }
02000cb7 Lui { rd: 25, imm: 33554432 }
04000f37 Lui { rd: 30, imm: 67108864 }
080001b7 Lui { rd: 3, imm: 134217728 }
10000437 Lui { rd: 8, imm: 268435456 }
200006b7 Lui { rd: 13, imm: 536870912 }
40000937 Lui { rd: 18, imm: 1073741824 }
80000bb7 Lui { rd: 23, imm: 2147483648 }
00000e17 Auipc { rd: 28, imm: 0 }
fffff097 Auipc { rd: 1, imm: 4294963200 }
00001317 Auipc { rd: 6, imm: 4096 }
00002597 Auipc { rd: 11, imm: 8192 }
00004817 Auipc { rd: 16, imm: 16384 }
00008a97 Auipc { rd: 21, imm: 32768 }
00010d17 Auipc { rd: 26, imm: 65536 }
00020f97 Auipc { rd: 31, imm: 131072 }
00040217 Auipc { rd: 4, imm: 262144 }
00080497 Auipc { rd: 9, imm: 524288 }
00100717 Auipc { rd: 14, imm: 1048576 }
00200997 Auipc { rd: 19, imm: 2097152 }
00400c17 Auipc { rd: 24, imm: 4194304 }
00800e97 Auipc { rd: 29, imm: 8388608 }
01000117 Auipc { rd: 2, imm: 16777216 }
02000397 Auipc { rd: 7, imm: 33554432 }
04000617 Auipc { rd: 12, imm: 67108864 }
08000897 Auipc { rd: 17, imm: 134217728 }
10000b17 Auipc { rd: 22, imm: 268435456 }
20000d97 Auipc { rd: 27, imm: 536870912 }
40000017 Auipc { rd: 0, imm: 1073741824 }
80000297 Auipc { rd: 5, imm: 2147483648 }
0000056f Jal { rd: 10, imm: 0 }
7ffff7ef Jal { rd: 15, imm: 1048574 }
80000a6f Jal { rd: 20, imm: -1048576 }
00200cef Jal { rd: 25, imm: 2 }
00400f6f Jal { rd: 30, imm: 4 }
008001ef Jal { rd: 3, imm: 8 }
0100046f Jal { rd: 8, imm: 16 }
020006ef Jal { rd: 13, imm: 32 }
0400096f Jal { rd: 18, imm: 64 }
08000bef Jal { rd: 23, imm: 128 }
10000e6f Jal { rd: 28, imm: 256 }
200000ef Jal { rd: 1, imm: 512 }
4000036f Jal { rd: 6, imm: 1024 }
001005ef Jal { rd: 11, imm: 2048 }
0000186f Jal { rd: 16, imm: 4096 }
00002aef Jal { rd: 21, imm: 8192 }
00004d6f Jal { rd: 26, imm: 16384 }
00008fef Jal { rd: 31, imm: 32768 }
0001026f Jal { rd: 4, imm: 65536 }
000204ef Jal { rd: 9, imm: 131072 }
0004076f Jal { rd: 14, imm: 262144 }
000809ef Jal { rd: 19, imm: 524288 }
fffffc6f Jal { rd: 24, imm: -2 }
ffdffeef Jal { rd: 29, imm: -4 }
c19ff16f Jal { rd: 2, imm: -1000 }
aabaa3ef Jal { rd: 7, imm: -349526 }
0060066f Jal { rd: 12, imm: 6 }
3e8008ef Jal { rd: 17, imm: 1000 }
55455b6f Jal { rd: 22, imm: 349524 }
2abaadef Jal { rd: 27, imm: 699050 }
000ff06f Jal { rd: 0, imm: 1044480 }
7fe002ef Jal { rd: 5, imm: 2046 }
1008252f LrW { rd: 10, rs1: 16 }
100da7af LrW { rd: 15, rs1: 27 }
10032a2f LrW { rd: 20, rs1: 6 }
1008acaf LrW { rd: 25, rs1: 17 }
100e2f2f LrW { rd: 30, rs1: 28 }
1003a1af LrW { rd: 3, rs1: 7 }
1009242f LrW { rd: 8, rs1: 18 }
100ea6af LrW { rd: 13, rs1: 29 }
1404292f LrW { rd: 18, rs1: 8 }
1409abaf LrW { rd: 23, rs1: 19 }
140f2e2f LrW { rd: 28, rs1: 30 }
1404a0af LrW { rd: 1, rs1: 9 }
140a232f LrW { rd: 6, rs1: 20 }
140fa5af LrW { rd: 11, rs1: 31 }
1405282f LrW { rd: 16, rs1: 10 }
140aaaaf LrW { rd: 21, rs1: 21 }
12002d2f LrW { rd: 26, rs1: 0 }
1205afaf LrW { rd: 31, rs1: 11 }
120b222f LrW { rd: 4, rs1: 22 }
1200a4af LrW { rd: 9, rs1: 1 }
1206272f LrW { rd: 14, rs1: 12 }
120ba9af LrW { rd: 19, rs1: 23 }
12012c2f LrW { rd: 24, rs1: 2 }
1206aeaf LrW { rd: 29, rs1: 13 }
160c212f LrW { rd: 2, rs1: 24 }
1601a3af LrW { rd: 7, rs1: 3 }
1607262f LrW { rd: 12, rs1: 14 }
160ca8af LrW { rd: 17, rs1: 25 }
16022b2f LrW { rd: 22, rs1: 4 }
1607adaf LrW { rd: 27, rs1: 15 }
160d202f LrW { rd: 0, rs1: 26 }
1602a2af LrW { rd: 5, rs1: 5 }
1938252f ScW { rd: 10, rs1: 16, rs2: 19 }
180da7af ScW { rd: 15, rs1: 27, rs2: 0 }
18d32a2f ScW { rd: 20, rs1: 6, rs2: 13 }
19a8acaf ScW { rd: 25, rs1: 17, rs2: 26 }
187e2f2f ScW { rd: 30, rs1: 28, rs2: 7 }
1943a1af ScW { rd: 3, rs1: 7, rs2: 20 }
1819242f ScW { rd: 8, rs1: 18, rs2: 1 }
18eea6af ScW { rd: 13, rs1: 29, rs2: 14 }
1db4292f ScW { rd: 18, rs1: 8, rs2: 27 }
1c89abaf ScW { rd: 23, rs1: 19, rs2: 8 }
1d5f2e2f ScW { rd: 28, rs1: 30, rs2: 21 }
1c24a0af ScW { rd: 1, rs1: 9, rs2: 2 }
1cfa232f ScW { rd: 6, rs1: 20, rs2: 15 }
1dcfa5af ScW { rd: 11, rs1: 31, rs2: 28 }
1c95282f ScW { rd: 16, rs1: 10, rs2: 9 }
1d6aaaaf ScW { rd: 21, rs1: 21, rs2: 22 }
1a302d2f ScW { rd: 26, rs1: 0, rs2: 3 }
1b05afaf ScW { rd: 31, rs1: 11, rs2: 16 }
1bdb222f ScW { rd: 4, rs1: 22, rs2: 29 }
1aa0a4af ScW { rd: 9, rs1: 1, rs2: 10 }
1b76272f ScW { rd: 14, rs1: 12, rs2: 23 }
1a4ba9af ScW { rd: 19, rs1: 23, rs2: 4 }
1b112c2f ScW { rd: 24, rs1: 2, rs2: 17 }
1be6aeaf ScW { rd: 29, rs1: 13, rs2: 30 }
1ebc212f ScW { rd: 2, rs1: 24, rs2: 11 }
1f81a3af ScW { rd: 7, rs1: 3, rs2: 24 }
1e57262f ScW { rd: 12, rs1: 14, rs2: 5 }
1f2ca8af ScW { rd: 17, rs1: 25, rs2: 18 }
1ff22b2f ScW { rd: 22, rs1: 4, rs2: 31 }
1ec7adaf ScW { rd: 27, rs1: 15, rs2: 12 }
1f9d202f ScW { rd: 0, rs1: 26, rs2: 25 }
1e62a2af ScW { rd: 5, rs1: 5, rs2: 6 }
0ff0000f Fence
0310000f Fence
0230000f Fence
0110000f Fence
0840000f Fence
0480000f Fence
0220000f Fence
8330000f Fence
00000073 Ecall
00100073 Undefined
12208073 Undefined
c01021f3 Undefined
0010f073 Undefined
02c5b533 Undefined
03df7fb3 Undefined
62b6252f Undefined
c0b6252f Undefined
00023187 Undefined
203170c3 Undefined
203100d3 Undefined
00010405 Undefined
0001c0c0 Undefined
00018082 Undefined
00018c05 Undefined
0031009b Undefined
03f15093 Undefined
203120b3 Undefined
0a3160b3 Undefined
60515093 Undefined
0020a463 Undefined
00113223 Undefined
004110e7 Undefined
02311093 Undefined
20311093 Undefined
44315093 Undefined
c0315093 Undefined
203100b3 Undefined
803170b3 Undefined
403160b3 Undefined
102120af Undefined
11f120af Undefined
182180af Undefined
9821a0af Undefined
00400073 Undefined
00008073 Undefined
0000001f Undefined
00000057 Undefined
00000077 Undefined
ffffffff Undefined";

#[test]
fn words_of_gnu_as(rt: HostRuntime) -> Result<(), Fail> {
    for line in WORDS.lines() {
        let (word, wanted) = line.split_once(' ').ok_or("a line has one part")?;
        let text = match rv_decode(u32::from_str_radix(word, 16)?) {
            Ok(instr) => format!(in rt.alloc(); "{instr:?}")?,
            Err(fault) => format!(in rt.alloc(); "{fault:?}")?,
        };
        assert_eq!(rt; text.as_str(), wanted, "{word}");
    }
    Ok(())
}
