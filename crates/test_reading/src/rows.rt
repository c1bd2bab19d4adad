//! Sources, each with the spans of its data.

/// Behind `=> ` stands the span of each datum, `FROM-TO`, and behind it in brackets those of its parts, the tail of a
/// list behind a dot; or the name of the first fault and its span. What stands between `‹` and `›` are bytes in
/// hexadecimal.
pub const SPANS: &str = r#"(define x -12)
=> 0-14(1-7 8-9 10-13 . )

[a . b]
=> 0-7(1-2 . 5-6)

#(1)#vu8(255)#;x
=> 0-4#(2-3 ) 4-13

'a `b ,c ,@d
=> 0-2(0-1 1-2 . ) 3-5(3-4 4-5 . ) 6-8(6-7 7-8 . ) 9-12(9-11 11-12 . )

#'a #`b #,c #,@d
=> 0-3(0-2 2-3 . ) 4-7(4-6 6-7 . ) 8-11(8-10 10-11 . ) 12-16(12-15 15-16 . )

#t#T #f#F
=> 0-2 2-4 5-7 7-9

#true
=> BadToken 0-5

#t'
=> BadToken 0-3

##
=> BadToken 0-1

#
=> BadToken 0-1

#vu8 (
=> BadToken 0-4

#vu16(
=> BadToken 0-5

#!fold-case
=> BadToken 0-11

; c
 a
=> 5-6

a;b
=> 0-1

; c‹E2 80 A9›a
=> 6-7

; c‹E2 80 A8›a ; d‹C2 85›b
=> 6-7 13-14

#| x #| y |# z |# a
=> 18-19

#||#a#|#||#|#b
=> 4-5 13-14

#|#a|##b
=> BadNumber 6-8

#| |
=> Unclosed 0-2

a #| b #| c
=> Unclosed 7-9

#| #| |#‹20›
=> Unclosed 0-2

#|#|#
=> Unclosed 2-4

(#!r6rs)#!r6rs
=> 0-8

#!r6rsx
=> BadToken 0-7

‹09 0B 0C›a‹C2 85›b‹C2 A0›c‹E2 80 A8›d‹E2 80 A9›e‹E3 80 80›f
=> 3-4 6-7 9-10 13-14 17-18 21-22

‹EF BB BF›a
=> 3-4

‹EF BB BF›#!/usr/bin/env‹E2 80 A9›b
a
=> 22-23

#! x‹E2 80 A8›a
=> 7-8

#!
=> BadToken 0-2

a‹EF BB BF›
=> BadToken 0-4

#\a #\A #\( #\  #\)
=> 0-3 4-7 8-11 12-15 16-19

#\nul #\alarm #\backspace #\tab
=> 0-5 6-13 14-25 26-31

#\linefeed #\newline #\vtab #\page
=> 0-10 11-20 21-27 28-34

#\return #\esc #\space #\delete
=> 0-8 9-14 15-22 23-31

#\xFF #\x03BB #\x00006587
=> 0-5 6-13 14-25

#\λ
=> 0-4

#\x0001z
=> BadToken 0-8

#\λx
=> BadToken 0-5

#\alarmx
=> BadToken 0-8

#\alarm x
=> 0-7 8-9

#\Alarm
=> BadToken 0-7

#\alert
=> BadToken 0-7

#\xA #\xff #\x ff
=> 0-4 5-10 11-14 15-17

#\x(ff)
=> 0-3 3-7(4-6 . )

#\(x)
=> BadToken 0-4

#\(x
=> BadToken 0-4

#\((x)
=> 0-3 3-6(4-5 . )

#\x00110000
=> BadEscape 0-11

#\x000000001
=> 0-12

#\xD800
=> BadEscape 0-7

#\X41
=> BadToken 0-5

#\Space
=> BadToken 0-7

(#\
=> BadToken 1-3

"abc"
=> 0-5

"\x41;bc""\x41; bc"
=> 0-9 9-19

"\x41bc;"
=> 0-9

"\x41"
=> BadEscape 0-1

"\x;"
=> BadEscape 0-1

"a\x41bx;"
=> BadEscape 0-2

"\x00000041;"
=> 0-13

"\x0010FFFF;"
=> 0-13

"\x00110000;"
=> BadEscape 0-1

"\x000000001;"
=> 0-14

"\xD800;"
=> BadEscape 0-1

"\xDFFF;"
=> BadEscape 0-1

"\xE000;"
=> 0-9

"A
bc"
=> 0-6

"a‹0D›b‹0D›
c‹C2 85›d‹0D C2 85›e‹E2 80 A8›f‹E2 80 A9›g"
=> 0-23

"a\ ‹09 0D›
‹C2 A0› b\
"
=> 0-14

"\a\b\t\n\v\f\r\"\\"
=> 0-20

"a\q"
=> BadEscape 0-2

"\  q"
=> BadEscape 0-1

"\‹E2 80 A9›"
=> BadEscape 0-1

x"abc
=> Unclosed 1-2

"
=> Unclosed 0-1

"a\
=> Unclosed 0-1

"\x
=> Unclosed 0-1

"\x41
=> Unclosed 0-1

"\‹20›
=> Unclosed 0-1

"\‹0A›
=> Unclosed 0-1

lambda q soup
=> 0-6 7-8 9-13

list->vector V17a <=? a34kTMNs
=> 0-12 13-17 18-21 22-30

+ - ... -> ->-x
=> 0-1 2-3 4-7 8-10 11-15

! $ % & * / : < = > ? ^ _ ~ a+-.@
=> 0-1 2-3 4-5 6-7 8-9 10-11 12-13 14-15 16-17 18-19 20-21 22-23 24-25 26-27 28-33

H\x65;llo \x3BB;
=> 0-9 10-16

\x31;a ->\x20;
=> 0-6 7-14

λ ß日本 a‹E0 A4 83 D9 A0›
=> 0-2 3-11 12-18

‹E0 A4 83›a
=> BadToken 0-4

‹D9 A0›
=> BadToken 0-2

a'b
=> BadToken 0-3

@a
=> BadToken 0-2

|a|
=> BadToken 0-3

{}
=> BadToken 0-2

a\q
=> BadEscape 0-1

1\q
=> BadEscape 0-1

a'\q
=> BadEscape 0-2

\xD800;
=> BadEscape 0-0

a\x41
=> BadEscape 0-1

a#q
=> BadToken 1-3

a#b
=> BadNumber 1-3

0 -0 +5 007
=> 0-1 2-4 5-7 8-11

170141183460469231731687303715884105727
=> 0-39

170141183460469231731687303715884105728
=> BadNumber 0-39

-170141183460469231731687303715884105728
=> 0-40

-170141183460469231731687303715884105729
=> BadNumber 0-40

#xFF #X-ff #b101 #o17 #D+10
=> 0-4 5-10 11-16 17-21 22-27

#x-80000000000000000000000000000000
=> 0-35

#x80000000000000000000000000000000
=> BadNumber 0-34

#b2
=> BadNumber 0-3

#x
=> BadNumber 0-2

#e1
=> BadNumber 0-3

#I1.0
=> BadNumber 0-5

#d1/2
=> BadNumber 0-5

#x1\q
=> BadNumber 0-3

#xFF\q
=> BadNumber 0-4

#e\q
=> BadNumber 0-2

#b1\x31
=> BadNumber 0-3

#d\x31;
=> BadNumber 0-7

1/2 -3/4 +10/05
=> 0-3 4-8 9-15

1/0
=> BadNumber 0-3

1/-2
=> BadNumber 0-4

1/170141183460469231731687303715884105727
=> 0-41

1/170141183460469231731687303715884105728
=> BadNumber 0-41

-170141183460469231731687303715884105728/3
=> BadNumber 0-42

1.5 .5 5. -1.50e10 +.5S-1
=> 0-3 4-6 7-9 10-18 19-25

1e3 1E+3 1s2 1f2 1d2 1L2
=> 0-3 4-8 9-12 13-16 17-20 21-24

1e
=> BadNumber 0-2

.e1
=> BadNumber 0-3

..
=> BadNumber 0-2

....
=> BadNumber 0-4

+a
=> BadNumber 0-2

1+
=> BadNumber 0-2

-a
=> BadNumber 0-2

->a'b
=> BadNumber 0-5

1'2
=> BadNumber 0-3

+i
=> BadNumber 0-2

1+2i
=> BadNumber 0-4

+inf.0
=> BadNumber 0-6

1.5|53
=> BadNumber 0-6

12a‹FF›
=> BadNumber 0-3

12‹FF›
=> BadUtf8 2-3

a‹E2 82›
=> BadUtf8 1-2

#t‹FF›
=> BadToken 0-2

#\‹FF›
=> BadUtf8 2-3

#\a‹FF›
=> BadToken 0-3

a\‹FF›
=> BadEscape 0-1

"a‹FF›"
=> BadUtf8 2-3

"\‹FF›"
=> BadUtf8 2-3

"\x41‹FF›"
=> BadUtf8 5-6

"\ ‹FF›"
=> BadUtf8 3-4

; a‹C0 0A›
=> BadUtf8 3-4

#| ‹ED A0 80›
=> BadUtf8 3-4

#!/a‹FF›
a
=> BadUtf8 4-5

#!r6rs‹FF›
=> BadToken 0-6

 a
 b ; c
=> 1-2 4-5

'a
=> 0-2(0-1 1-2 . )

`(,b ,@c)
=> 0-9(0-1 1-9(2-4(2-3 3-4 . ) 5-8(5-7 7-8 . ) . ) . )

#'a #`b
=> 0-3(0-2 2-3 . ) 4-7(4-6 6-7 . )

#,c #,@d
=> 0-3(0-2 2-3 . ) 4-8(4-7 7-8 . )

(a . (b . (c . ())))
=> 0-20(1-2 6-7 11-12 . )

(a . b)
=> 0-7(1-2 . 5-6)

(a . 'b)
=> 0-8(1-2 5-6 6-7 . )

[a (b) #(1 x)]
=> 0-14(1-2 3-6(4-5 . ) 7-13#(9-10 11-12 ) . )

#vu8(1 #;(x 2) 255 #xFF)
=> 0-24

#;a b
=> 4-5

(a #;#;b c d)
=> 0-13(1-2 11-12 . )

(a . #;x b #;y)
=> 0-15(1-2 . 9-10)

() #() (())
=> 0-2 3-6#() 7-11(8-10 . )

'(a . #(#\x "q\x41;"))
=> 0-22(0-1 1-22(2-3 . 6-21#(8-11 12-20 )) . )

 ab‹20›
=> 1-3

(a b)
=> 0-5(1-2 3-4 . )

[a . b]
=> 0-7(1-2 . 5-6)

(a . (b))
=> 0-9(1-2 6-7 . )

(a . [b . c])
=> 0-13(1-2 6-7 . 10-11)

'a
=> 0-2(0-1 1-2 . )

#'  a
=> 0-5(0-2 4-5 . )

'#;b a
=> 0-6(0-1 5-6 . )

,@(a)
=> 0-5(0-2 2-5(3-4 . ) . )

()
=> 0-2

#(a ())
=> 0-7#(2-3 4-6 )

#vu8(1 2)
=> 0-9

"a b"
=> 0-5

#\x41
=> 0-5

λ
=> 0-2

‹EF BB BF›a
=> 3-4

#!/x
 a
=> 6-7"#;
